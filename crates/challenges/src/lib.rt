// The message of a challenge, fed to a hasher as it arises: behind the label the proof's context, then what each statement claims with its commitments.
#![tactic(auto)]

ghost use Rattle.std.specs.Prelude.{◌≡◌};
ghost use Rattle.sha256.specs.Stream.{feed};
ghost use Rattle.sha256.specs.Feed.{stream_of};
ghost use Rattle.rules.specs.Proofs.{context_bytes, statement_bytes};

use group::Element;
use sha256::Hasher;

// Behind the label: which proof of the board it is, by its record's mark and number field, the round from 1, and its place in the record from 0.
pub fn feed_context(labelled: Hasher, mark: [u8; 2], number: u32, round: u8, place: usize) -> Hasher
    ensures { stream_of result ≡ feed (stream_of labelled) (context_bytes (record { mark = mark; number = number; round = round; place = place })) }
{
    let [.., number_high, number_low] = number.to_be_bytes();
    let [.., place_high, place_low] = place.to_be_bytes();
    labelled.update(&[
        mark[0],
        mark[1],
        number_high,
        number_low,
        round,
        place_high,
        place_low,
    ])
}

// Behind the statements before it: what a statement says, A and B, and its commitments.
pub fn feed_statement(h: Hasher, left: Element, right: Element, t1: Element, t2: Element) -> Hasher
    ensures { stream_of result ≡ feed (stream_of h) (statement_bytes (record { left = left.0; right = right.0 }) (record { t1 = t1.0; t2 = t2.0 })) }
{
    let mut bytes = [0u8; 16];
    bytes[..4].copy_from_slice(&left.0.to_be_bytes());
    bytes[4..8].copy_from_slice(&right.0.to_be_bytes());
    bytes[8..12].copy_from_slice(&t1.0.to_be_bytes());
    bytes[12..].copy_from_slice(&t2.0.to_be_bytes());
    h.update(&bytes)
}

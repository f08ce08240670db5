// Finding many receipts in one walk of the ballots: for each of up to 500 digests the number of the ballot whose record has it.
#![tactic(auto)]

ghost use Rattle.std.specs.Prelude.{◌≡◌, ◌≤◌, length, take, replicate};
ghost use Rattle.sha256.specs.Message.{sha256};
ghost use Rattle.rules.specs.Receipts.{digest_count, find_in_ballots, find_on_board, find_outcome, list_after};
ghost use Rattle.rules.specs.Answers.{finding_of};
ghost use Rattle.receipts.specs.Steps.{Hashes, Headed, Walked};

use digests::Digests;
use header::Head;
use reading::Reading;
use rules::{Refusal, Refused};

// What is read of a ballot's record: the place after it, and its digest.
#[derive(Clone, Copy)]
struct Hashed {
    next: usize,
    digest: [u8; 32],
}

// The record at the next place, which is to be that of the ballot with a number.
fn next_record(reading: Reading<'_>, n: usize, number: usize) -> Result<Hashed, Refusal>
    requires { (reading.next ≤ length reading.board.now) × (n ≤ 8) }
    ensures { Hashes reading.entry.board.now reading.entry.next n number result }
{
    let board = reading.board;
    let at = reading.next;
    frames::ballot_frame(board, at, n, number)?;
    let next = at + layout::ballot_length(n, frames::kind(board, at));
    Ok(Hashed {
        next,
        digest: sha256::digest(&board[at..next]),
    })
}

// Each ballot's record is hashed once, and its number entered at the digests that are its own.
fn walk_ballots(
    board: &[u8],
    h: Head,
    digests: &Digests<'_>,
    numbers: &mut [u16],
) -> Result<(), Refused>
    requires { Headed board.now h.n h.k × (length numbers.old ≡ digest_count digests.now.lent.now) }
    ensures { Walked board.now digests.now.lent.now numbers.old numbers.new result }
{
    let mut at = layout::HEADER_LENGTH;
    for number in 1..=h.k {
        let reading = reading::start(board, at);
        let read = next_record(reading, h.n, number).map_err(|refusal| Refused {
            refusal,
            record: number,
        })?;
        digests.enter(&read.digest, number as u16, numbers);
        at = read.next;
    }
    Ok(())
}

// The search in the ballots of a board whose header was read. The numbers wait, none yet, until the last ballot is passed.
fn find_in_ballots(
    board: &[u8],
    h: Head,
    digests: &Digests<'_>,
    numbers: &mut [u16],
    found: &mut [u16],
) -> Result<(), Refused>
    requires { Headed board.now h.n h.k × (numbers.old ≡ replicate (digest_count digests.now.lent.now) 0) × (length found.old ≡ digest_count digests.now.lent.now) }
    ensures found_after { finding_of result found.new ≡ find_in_ballots sha256 board.now digests.now.lent.now }
    ensures found_after_2 { found.new ≡ list_after (find_in_ballots sha256 board.now digests.now.lent.now) found.old }
{
    walk_ballots(board, h, digests, numbers)?;
    found.copy_from_slice(numbers);
    Ok(())
}

// The search on a board, for digests that fit the list.
fn find_on_board(board: &[u8], digests: &Digests<'_>, found: &mut [u16]) -> Result<(), Refused>
    requires { digest_count digests.now.lent.now ≤ length found.old }
    ensures found_after { finding_of result (take (digest_count digests.now.lent.now) found.new) ≡ find_on_board sha256 board.now digests.now.lent.now }
    ensures found_after_2 { found.new ≡ list_after (find_on_board sha256 board.now digests.now.lent.now) found.old }
{
    let reading = reading::start(board, 0);
    let h = reading::header_of(reading, layout::ranked()).map_err(|refusal| Refused {
        refusal,
        record: 0,
    })?;
    let count = digests.count();
    let mut numbers = [0; 500];
    find_in_ballots(
        board,
        h,
        digests,
        &mut numbers[..count],
        &mut found[..count],
    )
}

// The ballot number of each digest, to the front of the lent list; or why there is none.
pub fn find(board: &[u8], digests: &[u8], found: &mut [u16]) -> Result<(), Refused>
    ensures found_after { finding_of result (take (digest_count digests.now) found.new) ≡ find_outcome sha256 board.now digests.now (length found.old) }
    ensures found_after_2 { found.new ≡ list_after (find_outcome sha256 board.now digests.now (length found.old)) found.old }
{
    let Some(digests) = Digests::new(digests) else {
        return Err(Refused {
            refusal: Refusal::Digests,
            record: 0,
        });
    };
    let fits = digests.count() <= found.len();
    if !fits {
        return Err(Refused {
            refusal: Refusal::Output,
            record: 0,
        });
    }
    find_on_board(board, &digests, found)
}

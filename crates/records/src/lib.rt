// The BA and SH records, each with its tests in the table's order: the frame (1, 2, 6; of BA 17), the fields (7), the proofs (8), and what an
// audited BA shows (18).
#![tactic(auto)]

ghost use Rattle.std.specs.Prelude.{◌≡◌, ℕ, ◌+◌, ◌*◌, ◌≤◌, ◌<◌, ◌++◌, length};
ghost use Rattle.sha256.specs.Feed.{Fed};
ghost use Rattle.sha256.specs.Message.{sha256};
ghost use Rattle.group.specs.Elements.{parameters_of};
ghost use Rattle.rules.specs.Bytes.{number2, part};
ghost use Rattle.rules.specs.Records.{header_length};
ghost use Rattle.rules.specs.Proofs.{Context, context_bytes};
ghost use Rattle.rules.specs.Header.{ranked};
ghost use Rattle.rules.specs.Ballot.{holds_at};
ghost use Rattle.statements.specs.Claims.{claim_of, Within};
ghost use Rattle.header.specs.Heads.{head_of, HeaderKnown};
ghost use Rattle.records.specs.Parts.{fields_at};

use group::{Element, Group};
use header::Head;
use sha256::Hasher;
use statements::claims::Claim;
use statements::proof::{Bases, Shape};
use statements::{proof, walks};

pub mod ballot;
pub mod shift;

// The fields of a BA or SH record from its pairs on: these, and the branches of its proofs, one after another.
fn fields_good(
    board: &[u8],
    at: usize,
    pairs: usize,
    branches: usize,
    statements: usize,
    group: Group,
) -> bool
    requires { at + 8 * pairs + branches * (4 + 12 * statements) ≤ length board.now }
    ensures { result ≡ fields_at board.now at pairs branches statements group.p group.q }
{
    let Some(proofs) = walks::pairs_fields(board, at, pairs, group.p, group.q) else {
        return false;
    };
    walks::proof_fields(board, proofs, branches, statements, group.p, group.q).is_some()
}

// What the message of a challenge starts with: the board's label, and which proof of the record at a place it is, of what mark, in what round.
fn prefix(board: &[u8], at: usize, mark: [u8; 2], round: u8, place: usize) -> Hasher
    requires { (header_length ≤ length board.now) × (at + 4 ≤ length board.now) }
    ensures { Fed result (part board.now 22 32 ++ context_bytes (record { mark = mark; number = number2 board.now (at + 2); round = round; place = place })) }
{
    let labelled = Hasher::new().update(&board[22..layout::HEADER_LENGTH]);
    let number = fields::number2(board, at + 2);
    challenges::feed_context(labelled, mark, number, round, place)
}

// A proof on the board, at the bases g0 and g1; the label and the proof's context are fed to the hasher.
fn proof_good(
    board: &[u8],
    inverses: &[Element],
    prefix: Hasher,
    shape: Shape,
    h: Head,
    claim: Claim,
) -> bool
    requires header_known { HeaderKnown ranked board.now h }
    requires statements_in_bounds { shape.at + shape.branches * (4 + 12 * shape.statements) ≤ length board.now }
    requires by_index { (l i : ℕ) → l < shape.branches → i < shape.statements → Within board.now inverses.now (parameters_of h.setup.group) claim l i }
    ensures { (c : Context) → Fed prefix (part board.now 22 32 ++ context_bytes c) → result ≡ holds_at sha256 board.now (head_of board.now h) c shape.at shape.branches shape.statements (claim_of board.now (parameters_of h.setup.group) claim) }
{
    let bases = Bases {
        first: h.setup.group.g0,
        second: h.setup.group.g1,
    };
    proof::proof_holds(board, inverses, prefix, bases, shape, h.setup, claim)
}

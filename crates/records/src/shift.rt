// The SH record.
ghost use Rattle.std.specs.Prelude.{◌≡◌, ◌+◌, ◌*◌, ◌-◌, ◌≤◌, ◌<◌, length};
ghost use Rattle.sha256.specs.Message.{sha256};
ghost use Rattle.rules.specs.Records.{shift_length};
ghost use Rattle.rules.specs.Header.{ranked};
ghost use Rattle.rules.specs.Shift.{shift_fault};
ghost use Rattle.header.specs.Heads.{head_of, HeaderKnown};
ghost use Rattle.records.specs.Passes.{Passes};
ghost use Rattle.records.specs.Parts.{shift_proof_at};

use header::Head;
use rules::Refusal;
use statements::claims;
use statements::claims::{Claim, Struck};
use statements::proof::Shape;

// The proof, that the row with its 1 in column a is struck, of the record of round m, from 0. The inverses of the matrix before are made once.
fn shift_proof(board: &[u8], h: Head, before: usize, at: usize, m: usize, a: usize) -> bool
    requires header_known { HeaderKnown ranked board.now h × (0 < m) × (m < h.n) × (a < h.n) }
    requires n_in_bounds { (before + 8 * ((h.n - m + 1) * h.n) ≤ length board.now) × (at + shift_length h.n (h.n - m) ≤ length board.now) }
    ensures { result ≡ shift_proof_at board.now h before at (h.n - m) (m + 1) a }
{
    let n = h.n;
    let rows = n - m;
    let pairs = rows * n;
    let group = h.setup.group;
    let inverses = claims::inverse_table(board, group.p, group.q, before, 2 * (pairs + n));
    let claim = Claim::Shift(Struck {
        before,
        new: at + 4,
        rows,
        n,
        a,
    });
    let prefix = crate::prefix(board, at, layout::SH, (m + 1) as u8, 0);
    let shape = Shape {
        at: at + 4 + 8 * pairs,
        branches: rows + 1,
        statements: 2 + pairs,
    };
    crate::proof_good(board, &inverses, prefix, shape, h, claim)
}

// The record in round m, from 0, of the ballot with a number, at its place; the pairs of its record a round earlier start at before, and process a
// went out in that round.
pub fn read_shift(
    board: &[u8],
    h: Head,
    m: usize,
    a: usize,
    before: usize,
    at: usize,
    number: usize,
) -> Result<usize, Refusal>
    requires header_known { HeaderKnown ranked board.now h × (at ≤ length board.now) × (0 < m) × (m < h.n) × (1 ≤ a) × (a ≤ h.n) }
    requires n_in_bounds { before + 8 * ((h.n - m + 1) * h.n) ≤ length board.now }
    ensures { Passes board.now (shift_fault sha256 board.now (head_of board.now h) (h.n - m) at (m + 1) a before number) (at + shift_length h.n (h.n - m)) result }
{
    let n = h.n;
    let rows = n - m;
    let next = at + layout::shift_length(n, rows);
    frames::shift_frame(board, at, n, rows, number)?;
    let pairs = rows * n;
    if !crate::fields_good(board, at + 4, pairs, rows + 1, 2 + pairs, h.setup.group) {
        return Err(Refusal::Field);
    }
    if !shift_proof(board, h, before, at, m, a - 1) {
        return Err(Refusal::Proof);
    }
    Ok(next)
}

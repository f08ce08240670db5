// The RT record.
#![tactic(auto)]

ghost use Rattle.std.specs.Prelude.{◌≡◌, ◌+◌, ◌≤◌, ◌<◌, length, get_or, IfOk};
ghost use Rattle.numbers.specs.Below.{all_below};
ghost use Rattle.group.specs.Elements.{parameters_of};
ghost use Rattle.rules.specs.Records.{sheet_length};
ghost use Rattle.rules.specs.Header.{ranked};
ghost use Rattle.rules.specs.Audit.{pair_opens};
ghost use Rattle.rules.specs.Sheet as said;
ghost use Rattle.count.specs.State.{counts_on, Kept};
ghost use Rattle.header.specs.Heads.{HeaderKnown};
ghost use Rattle.sheets.specs.Tallies.{element_of, Tallied};
ghost use Rattle.sheets.specs.Sheets.{Counted, exponent_of, out_fault, Stepped, SheetReads};

use crate::tally::Tally;
use count::{Count, Sheet};
use group::{Exponent, Group};
use header::Head;
use rules::Refusal;

pub mod tally;

// What a sheet that is not refused comes to: the winner, where it closes the board; or the process that goes out.
#[derive(Clone, Copy)]
pub enum Outcome {
    Closed(usize),
    Open(usize),
}

// It, the standing count that the sheet hands back (the next; or the one that it took, with the sheet kept, where it closes the board), and the
// place after the sheet.
#[derive(Clone, Copy)]
pub struct Step {
    pub outcome: Outcome,
    pub count: Count,
    pub next: usize,
}

// What is read of a sheet: the counts and the exponents s by process.
#[derive(Clone, Copy)]
struct SheetFields {
    sheet: Sheet,
    s: [Exponent; 8],
}

// The counts and exponents of the sheet at a place, left to right; so many ballots are counted.
fn sheet_fields(board: &[u8], h: Head, ballots: usize, at: usize) -> Result<SheetFields, Refusal>
    requires { HeaderKnown ranked board.now h × (at + sheet_length h.n ≤ length board.now) × (ballots ≤ 1000) }
    ensures { Counted board.now h ballots at result }
{
    let most = ballots as u32;
    let mut counts = [0u32; 8];
    let mut s = [Exponent(0); 8];
    let mut place = at + 4;
    for i in 0..h.n {
        let (count, after) = fields::count(board, place, most).ok_or(Refusal::Count)?;
        let (x, end) = fields::exponent(board, after, h.setup.group.q).ok_or(Refusal::Field)?;
        counts[i] = count;
        s[i] = x;
        place = end;
    }
    Ok(SheetFields {
        sheet: Sheet { counts },
        s,
    })
}

// The tally equations: the products of each column, its count and its exponent s.
fn tallies(g: Group, n: usize, tally: Tally, read: SheetFields) -> bool
    requires { (0 < g.p) × (n ≤ 8) }
    ensures { result ≡ all_below n (λ i. pair_opens (parameters_of g) (element_of tally.b i) (element_of tally.y i) (exponent_of read.s i) (get_or read.sheet.counts i 0)) }
{
    (0..n).all(|i| {
        let count = Exponent(read.sheet.counts[i]);
        openings::pair_opens(g, tally.b[i], tally.y[i], read.s[i], count)
    })
}

// What a sheet of k counted ballots that passed the tests before comes to, by its out field: 0 where it closes the board, and else the process
// that leaves.
fn counted(
    count: Count,
    sheet: Sheet,
    n: usize,
    k: usize,
    out: usize,
    next: usize,
) -> Result<Step, Refusal>
    requires { Kept count × (count.gone.outs < 8) × (2 ≤ n) × (n ≤ 8) × (k ≤ 1000) }
    ensures { Stepped n k count (counts_on n sheet) (out_fault n k count (counts_on n sheet) out) next result }
{
    if count.closes(sheet, n, k as u32) {
        if out != 0 {
            return Err(Refusal::Out);
        }
        let ended = count.close(sheet, n);
        return Ok(Step {
            outcome: Outcome::Closed(ended.winner),
            count: ended.count,
            next,
        });
    }
    let leaves = count.leaves(sheet, n);
    if out != leaves {
        return Err(Refusal::Out);
    }
    Ok(Step {
        outcome: Outcome::Open(leaves),
        count: count.next(sheet, leaves),
        next,
    })
}

// The sheet of the round after those of the standing count, at its place; the products are those of the round's counted ballots.
pub fn read_sheet(
    board: &[u8],
    h: Head,
    count: Count,
    tally: Tally,
    at: usize,
) -> Result<Step, Refusal>
    requires header_known { HeaderKnown ranked board.now h × Kept count × (count.gone.outs < h.n) × (at ≤ length board.now) }
    requires few { tally.ballots ≤ 1000 }
    ensures sheet { (T : said.Tally) → Tallied h.setup.group.p h.n tally T → SheetReads board.now h count tally.ballots T at result }
    ensures next { IfOk result (λ step. step.next ≡ at + sheet_length h.n) }
{
    frames::sheet_frame(board, at, h.n, count.gone.outs + 1)?;
    let read = sheet_fields(board, h, tally.ballots, at)?;
    if !tallies(h.setup.group, h.n, tally, read) {
        return Err(Refusal::Tally);
    }
    let next = at + layout::sheet_length(h.n);
    counted(
        count,
        read.sheet,
        h.n,
        tally.ballots,
        frames::byte(board, at + 3),
        next,
    )
}

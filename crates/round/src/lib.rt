// One round: what a ballot has in it, what is carried from ballot to ballot, and its end with its sheet.
#![tactic(auto)]

ghost use Rattle.std.specs.Prelude.{◌≡◌, cond, ℕ, suc, ◌+◌, ◌*◌, ◌^◌, ◌≤◌, ◌<◌, length};
ghost use Rattle.rules.specs.Records.{kind_at, is_counted, pairs_from, record_length};
ghost use Rattle.rules.specs.Header.{ranked};
ghost use Rattle.count.specs.State.{Kept};
ghost use Rattle.statements.specs.Values.{Ready};
ghost use Rattle.header.specs.Heads.{HeaderKnown};
ghost use Rattle.round.specs.Rounds.{first_round, next_round, Begins, Later};
ghost use Rattle.round.specs.Walks.{Walked, Starts, RecordPasses, RecordReads, TallyAfter};
ghost use Rattle.round.specs.Outcomes.{RecordsReads, Rounded};

use count::Count;
use header::Head;
use records::{ballot, shift};
use rules::{Refusal, Refused};
use sheets::Outcome;
use sheets::tally::Tally;

// Round m, from 0, and the number of its first record. In the round before, whose ballots' records start at before, process a went out; in
// round 0 these are 0 (no Option: the rules' record_fault takes a process in every round, rules/specs/Check.antt).
#[derive(Clone, Copy)]
pub struct Round {
    pub m: usize,
    pub number: usize,
    pub a: usize,
    pub before: usize,
}

impl Round {
    pub fn first() -> Round
        ensures { result ≡ first_round }
    {
        Round {
            m: 0,
            number: 1,
            a: 0,
            before: 0,
        }
    }

    // The round after, with the number of its first record; this one's records start at a place, and process a went out.
    pub fn next(self, number: usize, a: usize, at: usize) -> Round
        requires { self.m < 8 }
        ensures { result ≡ next_round self number a at }
    {
        Round {
            m: self.m + 1,
            number,
            a,
            before: at,
        }
    }
}

// What the ballots' records of a round come to, where none is refused: the place and the number of the sheet, and the products of the first rows
// of counted ballots.
#[derive(Clone, Copy)]
pub struct RecordsRead {
    pub next: usize,
    pub number: usize,
    pub tally: Tally,
}

// What a round that is not refused comes to: the process that goes out, and the place and the number of the record after the round; or the winner.
#[derive(Clone, Copy)]
pub enum RoundOutcome {
    Open {
        out: usize,
        next: usize,
        number: usize,
    },
    Closed(usize),
}

// It, and the standing count that the round's sheet hands back: the next; or the one before, with the sheet kept, where it closes the board.
#[derive(Clone, Copy)]
pub struct RoundRead {
    pub outcome: RoundOutcome,
    pub count: Count,
}

// How far a round is read, beside the next unread place: the ballot that is next, from 0; the number of its record in the round; where its record
// of the round before starts, 0 in round 0, and its BA; and the products of the first rows so far.
#[derive(Clone, Copy)]
pub struct Walk {
    pub k: usize,
    pub number: usize,
    pub before: usize,
    pub ballot: usize,
    pub tally: Tally,
}

// How many ballots are counted up to the one that is next, itself among them.
fn counted_after(board: &[u8], walk: Walk) -> usize
    requires { (walk.ballot ≤ length board.now) × (walk.tally.ballots ≤ 1000) }
    ensures { result ≡ walk.tally.ballots + cond (is_counted (kind_at board.now walk.ballot)) 1 0 }
{
    walk.tally.ballots + usize::from(frames::kind(board, walk.ballot) == layout::COUNTED)
}

// The BA of the ballot that is next; of the last one also whether any is counted.
fn read_first(board: &[u8], at: usize, h: Head, round: Round, walk: Walk) -> Result<usize, Refusal>
    requires { HeaderKnown ranked board.now h × Walked board.now h round at walk × (walk.k < h.k) × (round.m ≡ 0) }
    ensures { RecordPasses board.now h round.a round.m walk.k at result }
{
    let number = walk.k + 1;
    let next = ballot::read_ballot(board, h, at, number)?;
    if number == h.k && counted_after(board, walk) == 0 {
        return Err(Refusal::NoneCounted);
    }
    Ok(next)
}

// What the ballot that is next has in a further round: its SH, where it is counted.
fn read_later(board: &[u8], at: usize, h: Head, round: Round, walk: Walk) -> Result<usize, Refusal>
    requires { HeaderKnown ranked board.now h × Walked board.now h round at walk × (walk.k < h.k) × Later h round }
    ensures { RecordPasses board.now h round.a round.m walk.k at result }
{
    let audited = frames::kind(board, walk.ballot) != layout::COUNTED;
    if audited {
        return Ok(at);
    }
    let before = layout::pairs_from(round.m - 1, walk.before);
    shift::read_shift(board, h, round.m, round.a, before, at, walk.k + 1)
}

// What the ballot that is next has in the round, at the next place; refused, it has its record's number.
pub fn read_record(
    board: &[u8],
    at: usize,
    h: Head,
    round: Round,
    walk: Walk,
) -> Result<usize, Refused>
    requires { HeaderKnown ranked board.now h × Walked board.now h round at walk × (walk.k < h.k) × (round.m + 1 < h.n) × (0 < round.m → Later h round) }
    ensures { RecordReads board.now h round walk at result }
{
    let passed = if round.m == 0 {
        read_first(board, at, h, round, walk)
    } else {
        read_later(board, at, h, round, walk)
    };
    passed.map_err(|refusal| Refused {
        refusal,
        record: walk.number,
    })
}

// The length of what a ballot of a kind has in the round before round m; 0 ahead of the first.
fn earlier_length(n: usize, kind: usize, m: usize) -> usize
    requires { (n ≤ 8) × (m < n) }
    ensures { (result ≤ 10000) × (m ≡ 0 → result ≡ 0) × ((e : ℕ) → m ≡ suc e → result ≡ record_length n kind e) }
{
    if m == 0 {
        0
    } else {
        layout::record_length(n, kind, m - 1)
    }
}

// The products, with the first row of the record at a place where its ballot is counted.
fn tally_after(board: &[u8], at: usize, h: Head, m: usize, kind: usize, tally: Tally) -> Tally
    requires ready { Ready h.setup × (h.n ≤ 8) × (at < 2 ^ 63) × (tally.ballots < 1000) }
    requires n_in_bounds { kind ≡ 0 → pairs_from m at + 8 * h.n ≤ length board.now }
    ensures { TallyAfter board.now h m kind at tally result }
{
    if kind == layout::COUNTED {
        tally.with_row(board, h, layout::pairs_from(m, at))
    } else {
        tally
    }
}

// Past the record that was read at a place and ends at another.
pub fn past_record(board: &[u8], at: usize, h: Head, round: Round, walk: Walk, next: usize) -> Walk
    requires header_known { HeaderKnown ranked board.now h × Walked board.now h round at walk × (walk.k < h.k) × (round.m + 1 < h.n) }
    requires record_passes { RecordPasses board.now h round.a round.m walk.k at (Ok next) }
    ensures { Walked board.now h round next result × (result.k ≡ walk.k + 1) }
{
    let kind = frames::kind(board, walk.ballot);
    Walk {
        k: walk.k + 1,
        number: walk.number + layout::records_of(kind, round.m),
        before: walk.before + earlier_length(h.n, kind, round.m),
        ballot: walk.ballot + layout::ballot_length(h.n, kind),
        tally: tally_after(board, at, h, round.m, kind, walk.tally),
    }
}

// Ahead of the first ballot of a round.
pub fn ahead(h: Head, round: Round) -> Walk
    requires { Ready h.setup }
    ensures { Starts h round result }
{
    Walk {
        k: 0,
        number: round.number,
        before: round.before,
        ballot: layout::HEADER_LENGTH,
        tally: Tally::none(h),
    }
}

// The end of a round, from what its records come to: its sheet, and the end of the board where the sheet closes it.
pub fn end_round(
    board: &[u8],
    h: Head,
    count: Count,
    round: Round,
    read: Result<RecordsRead, Refused>,
) -> Result<RoundRead, Refused>
    requires header_known { HeaderKnown ranked board.now h × Kept count × (count.gone.outs ≡ round.m) × (round.m + 1 < h.n) }
    requires records_reads { RecordsReads board.now h round.a round.m read }
    ensures { Rounded board.now h count round.m round.a result }
{
    let read = read?;
    let sheet = sheets::read_sheet(board, h, count, read.tally, read.next);
    let step = sheet.map_err(|refusal| Refused {
        refusal,
        record: read.number,
    })?;
    let outcome = match step.outcome {
        Outcome::Closed(winner) => {
            if board.len() != step.next {
                return Err(Refused {
                    refusal: Refusal::Remain,
                    record: read.number + 1,
                });
            }
            RoundOutcome::Closed(winner)
        }
        Outcome::Open(out) => RoundOutcome::Open {
            out,
            next: step.next,
            number: read.number + 1,
        },
    };
    Ok(RoundRead {
        outcome,
        count: step.count,
    })
}

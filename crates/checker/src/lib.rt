// The checker of a board: the rounds in order, the verdict and the count.
#![tactic(auto)]

ghost use Rattle.std.specs.Prelude.{◌≡◌, ◌+◌, ◌<◌, IfOk, Ok};
ghost use Rattle.sha256.specs.Message.{sha256};
ghost use Rattle.rules.specs.Records.{header_length};
ghost use Rattle.rules.specs.Count.{start};
ghost use Rattle.rules.specs.Header.{ranked, header};
ghost use Rattle.rules.specs.Check.{check_from, check_model, check_board, check_small};
ghost use Rattle.rules.specs.Answers.{verdict_of, order_of};
ghost use Rattle.count.specs.State.{Kept};
ghost use Rattle.header.specs.Heads.{head_of, HeaderKnown};
ghost use Rattle.round.specs.Rounds.{Begins};
ghost use Rattle.round.specs.Outcomes.{RecordsReads, Rounded};
ghost use Rattle.checker.specs.Models.{Narrower};
ghost use Rattle.checker.specs.Counts.{stops_from, stops_at, Verified};

use count::Count;
use header::Head;
use reading::Reading;
use round::{RecordsRead, Round, RoundOutcome, RoundRead};
use rules::{Accepted, Model, Refused};

// The verdict on a board; with an accepted one the count that its sheets came to and the number of processes, with a refused one the standing
// count of the round that was refused, and 0.
#[derive(Clone, Copy)]
pub struct Counted {
    pub verdict: Result<Accepted, Refused>,
    pub n: usize,
    pub count: Count,
}

fn refused(why: Refused, count: Count) -> Counted
    ensures { (result.verdict ≡ Err why) × (result.n ≡ 0) × (result.count ≡ count) }
{
    Counted {
        verdict: Err(why),
        n: 0,
        count,
    }
}

// The ballots' records of a round that starts at the next place, each read by the reading that was moved past the one before it.
fn read_records(reading: Reading<'_>, h: Head, round: Round) -> Result<RecordsRead, Refused>
    requires { HeaderKnown ranked reading.board.now h × Begins reading.board.now h reading.next round }
    ensures { RecordsReads reading.entry.board.now h round.a round.m result }
{
    let mut here = reading;
    let mut walk = round::ahead(h, round);
    // No `for`: the walk has the number of the ballot that is next, which a `for` would count a second time.
    while walk.k < h.k {
        let next = round::read_record(here.board, here.next, h, round, walk)?;
        walk = round::past_record(here.board, here.next, h, round, walk, next);
        here = reading::moved(here, next);
    }
    Ok(RecordsRead {
        next: here.next,
        number: walk.number,
        tally: walk.tally,
    })
}

// The sheet at the next place, after the records of its round.
fn read_sheet(
    reading: Reading<'_>,
    h: Head,
    count: Count,
    round: Round,
    read: RecordsRead,
) -> Result<RoundRead, Refused>
    requires header_known { HeaderKnown ranked reading.board.now h × Kept count × (count.gone.outs ≡ round.m) × (round.m + 1 < h.n) }
    requires records_read { RecordsReads reading.board.now h round.a round.m (Ok read) × (reading.next ≡ read.next) }
    ensures { Rounded reading.entry.board.now h count round.m round.a result }
{
    let read = RecordsRead {
        next: reading.next,
        number: read.number,
        tally: read.tally,
    };
    round::end_round(reading.board, h, count, round, Ok(read))
}

// One round, from the next place, where it starts, to the place after its sheet.
fn read_round(
    reading: Reading<'_>,
    h: Head,
    count: Count,
    round: Round,
) -> Result<RoundRead, Refused>
    requires { HeaderKnown ranked reading.board.now h × Begins reading.board.now h reading.next round × Kept count × (count.gone.outs ≡ round.m) }
    ensures { Rounded reading.entry.board.now h count round.m round.a result }
{
    let read = read_records(reading, h, round)?;
    read_sheet(reading::moved(reading, read.next), h, count, round, read)
}

// The rounds behind the header, which start at the next place, one after another. Each sheet takes the standing count and hands back the next.
fn rounds(reading: Reading<'_>, h: Head) -> Counted
    requires { HeaderKnown ranked reading.board.now h × (reading.next ≡ header_length) }
    ensures { Verified reading.entry.board.now (head_of reading.entry.board.now h) (check_from sha256 reading.entry.board.now (head_of reading.entry.board.now h) h.n start 0 0) (stops_from sha256 reading.entry.board.now (head_of reading.entry.board.now h) h.n start 0 0) result }
{
    let mut count = Count::new();
    let mut here = reading;
    let mut round = Round::first();
    loop {
        let read = match read_round(here, h, count, round) {
            Ok(read) => read,
            Err(why) => return refused(why, count),
        };
        count = read.count;
        match read.outcome {
            RoundOutcome::Closed(winner) => {
                let order = count.gone.order;
                return Counted {
                    verdict: Ok(Accepted {
                        rounds: count.gone.outs + 1,
                        winner,
                        order,
                    }),
                    n: h.n,
                    count,
                };
            }
            RoundOutcome::Open { out, next, number } => {
                round = round.next(number, out, here.next);
                here = reading::moved(here, next);
            }
        }
    }
}

// The verdict on a board of a model, and its count. Its header is read at the first place, the rounds from the place after it on.
fn check_model(board: &[u8], model: Model) -> Counted
    requires { Narrower model }
    ensures { Verified board.now (header board.now) (check_model sha256 board.now model) (stops_at sha256 board.now model) result }
{
    let reading = reading::start(board, 0);
    match reading::header_of(reading, model) {
        Ok(h) => rounds(reading::moved(reading, layout::HEADER_LENGTH), h),
        Err(refusal) => refused(Refused { refusal, record: 0 }, Count::new()),
    }
}

// The verdict on a board of rankings, and its count.
pub fn count_board(board: &[u8]) -> Counted
    ensures { Verified board.now (header board.now) (check_board sha256 board.now) (stops_at sha256 board.now ranked) result }
{
    check_model(board, layout::ranked())
}

// The verdict on a board of rankings.
pub fn check(board: &[u8]) -> Result<Accepted, Refused>
    ensures verdict { verdict_of result ≡ check_board sha256 board.now }
    ensures order { IfOk result (λ a. a.order ≡ order_of (check_board sha256 board.now)) }
{
    count_board(board).verdict
}

// The verdict for the screen in the council room, which shows five processes and stores 200 ballots.
pub fn check_small(board: &[u8]) -> Result<Accepted, Refused>
    ensures verdict { verdict_of result ≡ check_small sha256 board.now }
    ensures order { IfOk result (λ a. a.order ≡ order_of (check_small sha256 board.now)) }
{
    check_model(board, layout::small()).verdict
}

// The writer: a board made from rankings and draws.
#![tactic(auto)]

ghost use Rattle.std.specs.Prelude.{◌≡◌, ◌+◌, length, IfOk};
ghost use Rattle.sha256.specs.Message.{sha256};
ghost use Rattle.jobs.specs.Write.{board_written, write_outcome, write_output};
ghost use Rattle.jobs.specs.Replies.{outcome_of, order_written};
ghost use Rattle.count.specs.State.{list_of, Kept};
ghost use Rattle.validity.specs.Jobs.{job_of};

use boards::{Entries, Head, rounds};
use count::Ended;
use jobs::{Unwritten, Written};
use rules::Refusal;
use statements::Setup;
use validity::{Job, repeats};

// Refused, with no bad ranking.
fn refused(refusal: Refusal) -> Unwritten
    ensures { result ≡ record { refusal = refusal; ranking = 0 } }
{
    Unwritten {
        refusal,
        ranking: 0,
    }
}

fn board_written(ended: Ended, length: usize) -> Written
    requires { Kept ended.count }
    ensures { (outcome_of (Ok result) ≡ board_written length (ended.count.gone.outs + 1) (list_of ended.count.gone) ended.winner) × (result.order ≡ ended.count.gone.order) }
{
    let gone = ended.count.gone;
    // a literal takes a field that is an array from a variable alone
    let order = gone.order;
    Written {
        length,
        rounds: gone.outs + 1,
        winner: ended.winner,
        order,
    }
}

// The board of a job, or why there is none.
pub fn write(
    job: Job,
    label: &[u8],
    rankings: &[u8],
    kinds: &[u8],
    draws: &[u32],
    out: &mut [u8],
) -> Result<Written, Unwritten>
    ensures result_value { outcome_of result ≡ write_outcome sha256 (job_of job label.now rankings.now kinds.now draws.now) (length out.old) }
    ensures order_value { IfOk result (λ w. w.order ≡ order_written (write_outcome sha256 (job_of job label.now rankings.now kinds.now draws.now) (length out.old))) }
    ensures out_after { out.new ≡ write_output sha256 (job_of job label.now rankings.now kinds.now draws.now) out.old }
{
    let g = validity::up_to_kinds(job, label, rankings, kinds)?;
    let ended = plain::rounds::count(rankings, kinds, job.n, job.k);
    let rounds = ended.count.gone.outs + 1;
    let m = plain::rounds::measure_of(kinds, job.n, job.k, rounds);
    if !validity::draws_good(draws, m.needed, job.q) {
        return Err(refused(Refusal::Draws));
    }
    let different = repeats::none_repeats(draws, kinds, job.n, job.k, rounds);
    if !different {
        return Err(refused(Refusal::Repeat));
    }
    let short = out.len() < m.length;
    if short {
        return Err(refused(Refusal::Output));
    }
    let head = Head {
        n: job.n,
        k: job.k,
        counter: job.counter,
        setup: Setup::new(g),
    };
    let entries = Entries {
        head,
        label,
        rankings,
        kinds,
        draws,
    };
    rounds::write_board(out, entries, ended.count);
    Ok(board_written(ended, m.length))
}

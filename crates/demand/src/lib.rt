// The third demand on running code: what `check`, `check_small` and `write` answer is what the plain count says. Their own contracts are repeated.
#![tactic(auto)]

ghost use Rattle.std.specs.Prelude.{◌≡◌, length, IfOk};
ghost use Rattle.sha256.specs.Message.{sha256};
ghost use Rattle.rules.specs.Check.{check_board, check_small};
ghost use Rattle.rules.specs.Answers.{verdict_of, order_of};
ghost use Rattle.jobs.specs.Write.{write_outcome, write_output};
ghost use Rattle.jobs.specs.Replies.{outcome_of, order_written};
ghost use Rattle.validity.specs.Jobs.{job_of};
ghost use Rattle.demand.specs.Demand.{AcceptedIsPlain, AuditedAsShown, AsForTheBox, ValidIsWritten};

use jobs::{Unwritten, Written};
use rules::{Accepted, Refused};
use validity::Job;

// First half, of any byte string; and what its audited ballots open to.
pub fn check(board: &[u8]) -> Result<Accepted, Refused>
    ensures verdict { verdict_of result ≡ check_board sha256 board.now }
    ensures order { IfOk result (λ a. a.order ≡ order_of (check_board sha256 board.now)) }
    ensures accepted_is_plain { AcceptedIsPlain board.now result }
    ensures audited_as_shown { AuditedAsShown board.now result }
{
    checker::check(board)
}

// The same of the screen's entry; and that it answers as the box's own does wherever 23 is not due.
pub fn check_small(board: &[u8]) -> Result<Accepted, Refused>
    ensures verdict { verdict_of result ≡ check_small sha256 board.now }
    ensures order { IfOk result (λ a. a.order ≡ order_of (check_small sha256 board.now)) }
    ensures as_for_the_box { AsForTheBox board.now result }
    ensures accepted_is_plain { AcceptedIsPlain board.now result }
    ensures audited_as_shown { AuditedAsShown board.now result }
{
    checker::check_small(board)
}

// Second half, of any job.
pub fn write(
    job: Job,
    label: &[u8],
    rankings: &[u8],
    kinds: &[u8],
    draws: &[u32],
    out: &mut [u8],
) -> Result<Written, Unwritten>
    ensures result_value { outcome_of result ≡ write_outcome sha256 (job_of job label.now rankings.now kinds.now draws.now) (length out.old) }
    ensures order_value { IfOk result (λ w. w.order ≡ order_written (write_outcome sha256 (job_of job label.now rankings.now kinds.now draws.now) (length out.old))) }
    ensures out_after { out.new ≡ write_output sha256 (job_of job label.now rankings.now kinds.now draws.now) out.old }
    ensures valid_is_written { ValidIsWritten (job_of job label.now rankings.now kinds.now draws.now) out.old out.new result }
{
    writer::write(job, label, rankings, kinds, draws, out)
}

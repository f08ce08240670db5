// The records of a round's ballots.
ghost use Rattle.std.specs.Prelude.{◌≡◌, ℕ, suc, ◌+◌, ◌*◌, ◌≤◌, ◌<◌, length, get_or};
ghost use Rattle.numbers.specs.Below.{sum_below};
ghost use Rattle.sha256.specs.Message.{sha256};
ghost use Rattle.rules.specs.Records.{record_length};
ghost use Rattle.jobs.specs.Job.{record_draws};
ghost use Rattle.jobs.specs.Board.{record_bytes};
ghost use Rattle.output.specs.Written.{written};
ghost use Rattle.count.specs.State.{list_of};
ghost use Rattle.boards.specs.Parts.{board_job, head_group, RoundReady, TurnReady, plan_records};

use crate::Entries;
use ballots::ballot::Ballot;
use ballots::shift::Shift;
use ballots::{ballot, shift};
use count::{Gone, Sheet};
use plain::{rankings, rounds};

// A round, from 0: those gone out before the round before it and before it, the last of them, where the draws of the two rounds start, who goes out in it and its
// sheet.
#[derive(Clone, Copy)]
pub struct RoundPlan {
    pub m: usize,
    pub before: Gone,
    pub gone: Gone,
    pub a: u8,
    pub old: usize,
    pub new: usize,
    pub out: u8,
    pub sheet: Sheet,
}

// Ballot b, from 0, in a round, and where the draws of its record in the round before and of its new one start.
#[derive(Clone, Copy)]
pub struct Turn {
    pub plan: RoundPlan,
    pub b: usize,
    pub old: usize,
    pub new: usize,
}

// A ballot in the first round.
fn write_first(out: &mut [u8], entries: Entries, turn: Turn)
    requires { TurnReady (board_job entries) turn × (turn.plan.m ≡ 0) × (record_length entries.head.n (get_or entries.kinds.now turn.b 0) turn.plan.m ≤ length out.old) }
    ensures { out.new ≡ written (record_bytes sha256 (board_job entries.entry) (head_group entries.entry.head) (list_of turn.plan.before) turn.plan.a turn.plan.m turn.b) out.old }
{
    let n = entries.head.n;
    let b = turn.b;
    let list = rankings::still_in(entries.rankings, b * n, n, turn.plan.gone);
    let ballot = Ballot {
        n,
        number: (b + 1) as u32,
        kind: entries.kinds[b],
        list,
        from: turn.new,
    };
    ballot::write_ballot(
        out,
        entries.label,
        entries.head.setup,
        ballot,
        entries.draws,
    );
}

// A ballot in a later round: an audited one has no record there.
fn write_later(out: &mut [u8], entries: Entries, turn: Turn)
    requires { TurnReady (board_job entries) turn × (0 < turn.plan.m) × (record_length entries.head.n (get_or entries.kinds.now turn.b 0) turn.plan.m ≤ length out.old) }
    ensures { out.new ≡ written (record_bytes sha256 (board_job entries.entry) (head_group entries.entry.head) (list_of turn.plan.before) turn.plan.a turn.plan.m turn.b) out.old }
{
    let n = entries.head.n;
    let plan = turn.plan;
    let m = plan.m;
    let b = turn.b;
    let kind = usize::from(entries.kinds[b]);
    if kind != layout::COUNTED {
        return;
    }
    let first = b * n;
    let before = rankings::still_in(entries.rankings, first, n, plan.before);
    let after = rankings::still_in(entries.rankings, first, n, plan.gone);
    let s = Shift {
        n,
        rows: n - m,
        round: (m + 1) as u8,
        number: (b + 1) as u32,
        before,
        after,
        struck: rankings::row_of(before, n - m + 1, plan.a),
        column: usize::from(plan.a) - 1,
        old: turn.old,
        new: turn.new,
    };
    shift::write_shift(out, entries.label, entries.head.setup, s, entries.draws);
}

fn write_record(out: &mut [u8], entries: Entries, turn: Turn)
    requires { TurnReady (board_job entries) turn × (record_length entries.head.n (get_or entries.kinds.now turn.b 0) turn.plan.m ≤ length out.old) }
    ensures { out.new ≡ written (record_bytes sha256 (board_job entries.entry) (head_group entries.entry.head) (list_of turn.plan.before) turn.plan.a turn.plan.m turn.b) out.old }
{
    if turn.plan.m == 0 {
        write_first(out, entries, turn);
    } else {
        write_later(out, entries, turn);
    }
}

// The draws of what a ballot has in the round before round m; none before the first.
fn draws_before(n: usize, kind: usize, m: usize) -> usize
    requires { (n ≤ 8) × (m < n) }
    ensures { ((j : ℕ) → m ≡ suc j → result ≡ record_draws n kind j) × (result ≤ 1000) }
{
    if m == 0 {
        0
    } else {
        rounds::record_draws(n, kind, m - 1)
    }
}

// The records of all ballots, and how many bytes they are.
pub fn write_records(out: &mut [u8], entries: Entries, plan: RoundPlan) -> usize
    requires { RoundReady (board_job entries) plan × (sum_below entries.head.k (λ i. record_length entries.head.n (get_or entries.kinds.now i 0) plan.m) ≤ length out.old) }
    ensures { (result ≡ sum_below entries.entry.head.k (λ i. record_length entries.entry.head.n (get_or entries.entry.kinds.now i 0) plan.m)) × (out.new ≡ written (plan_records sha256 (board_job entries.entry) (head_group entries.entry.head) plan) out.old) }
{
    let n = entries.head.n;
    let m = plan.m;
    let mut at = 0;
    let mut old = plan.old;
    let mut new = plan.new;
    for b in 0..entries.head.k {
        let kind = usize::from(entries.kinds[b]);
        let turn = Turn { plan, b, old, new };
        write_record(&mut out[at..], entries, turn);
        at += layout::record_length(n, kind, m);
        old += draws_before(n, kind, m);
        new += rounds::record_draws(n, kind, m);
    }
    at
}

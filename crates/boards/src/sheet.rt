// The sheet of a round.
ghost use Rattle.std.specs.Prelude.{◌≡◌, true, cond, ◌++◌, ℕ, ◌+◌, ◌%◌, ◌≤◌, ◌<◌, length, get_or};
ghost use Rattle.numbers.specs.Below.{sum_below};
ghost use Rattle.rules.specs.Bytes.{bytes2, bytes4};
ghost use Rattle.rules.specs.Records.{is_counted, sheet_length};
ghost use Rattle.jobs.specs.Job.{record_draws};
ghost use Rattle.jobs.specs.Records.{sheet_bytes};
ghost use Rattle.output.specs.Written.{written};

use crate::Entries;
use crate::records::RoundPlan;
use group::Exponent;
use plain::rounds;

// The sum modulo q of one secret of each counted ballot, the same in each record of round m: the first ballot's stands at a place.
fn column_sum(entries: Entries, m: usize, from: usize) -> Exponent
    requires n_high { (entries.head.n ≤ 8) × (m < entries.head.n) × (entries.head.k ≤ 1000) × (entries.head.k ≤ length entries.kinds.now) × (from ≤ 100000000) }
    requires by_index { (b : ℕ) → b < entries.head.k → is_counted (get_or entries.kinds.now b 0) ≡ true → from + sum_below b (λ i. record_draws entries.head.n (get_or entries.kinds.now i 0) m) < length entries.draws.now }
    ensures { result.0 ≡ sum_below entries.entry.head.k (λ b. cond (is_counted (get_or entries.entry.kinds.now b 0)) (get_or entries.entry.draws.now (from + sum_below b (λ i. record_draws entries.entry.head.n (get_or entries.entry.kinds.now i 0) m)) 0) 0) % entries.entry.head.setup.group.q }
{
    let mut sum: u64 = 0;
    let mut at = from;
    for b in 0..entries.head.k {
        let kind = usize::from(entries.kinds[b]);
        if kind == layout::COUNTED {
            sum += u64::from(entries.draws[at]);
        }
        at += rounds::record_draws(entries.head.n, kind, m);
    }
    group::reduce(sum, entries.head.setup.group.q)
}

// A column of it: its count, and the sum of its first pairs' secrets.
fn write_tally(out: &mut [u8], votes: u32, sum: Exponent)
    requires { 6 ≤ length out.old }
    ensures { out.new ≡ written (bytes2 votes ++ bytes4 sum.0) out.old }
{
    output::put_number2(out, votes);
    output::put_number4(&mut out[2..], sum.0);
}

pub fn write_sheet(out: &mut [u8], entries: Entries, plan: RoundPlan)
    requires n_high { (entries.head.n ≤ 8) × (plan.m < entries.head.n) × (entries.head.k ≤ 1000) × (entries.head.k ≤ length entries.kinds.now) × (plan.new ≤ 10000000) × (sheet_length entries.head.n ≤ length out.old) }
    requires by_index { (b : ℕ) → b < entries.head.k → is_counted (get_or entries.kinds.now b 0) ≡ true → plan.new + sum_below b (λ i. record_draws entries.head.n (get_or entries.kinds.now i 0) plan.m) + entries.head.n ≤ length entries.draws.now }
    ensures { out.new ≡ written (sheet_bytes entries.entry.head.setup.group.q entries.entry.head.n entries.entry.head.k (λ i. get_or entries.entry.kinds.now i 0) entries.entry.draws.now (λ b. plan.new + sum_below b (λ i. record_draws entries.entry.head.n (get_or entries.entry.kinds.now i 0) plan.m)) plan.m plan.out plan.sheet.counts) out.old }
{
    let round = (plan.m + 1) as u8;
    output::put_two(out, layout::RT);
    output::put_two(&mut out[2..], [round, plan.out]);
    for i in 0..entries.head.n {
        let at = 4 + 6 * i;
        let sum = column_sum(entries, plan.m, plan.new + i);
        write_tally(&mut out[at..], plan.sheet.counts[i], sum);
    }
}

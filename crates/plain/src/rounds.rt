// The rounds of the plain count, and the draws and the bytes that they come to.
ghost use Rattle.std.specs.Prelude.{◌≡◌, ◌+◌, ◌*◌, ◌≤◌, ◌<◌, length, get_or};
ghost use Rattle.numbers.specs.Below.{sum_below};
ghost use Rattle.rules.specs.Bytes.{part};
ghost use Rattle.rules.specs.Records.{is_counted, record_length};
ghost use Rattle.rules.specs.Count.{plain_count, table_where};
ghost use Rattle.jobs.specs.Job.{record_draws, round_draws, round_at};
ghost use Rattle.count.specs.State.{result_of, Kept};

use crate::{kinds, votes};
use count::{Count, Ended};

// The draws that a board needs, and its length. Both are summed by hand: an `impl Add` is longer than the four additions, since it says when they fit.
#[derive(Clone, Copy)]
pub struct Measure {
    pub needed: usize,
    pub length: usize,
}

// The draws that what a ballot of a kind has in round m, from 0, needs; an audited one has no SH.
#[tactic(auto, using(crate::proofs::Sizes::draws_first, crate::proofs::Sizes::draws_later, crate::proofs::Sizes::draws_none))]
pub fn record_draws(n: usize, kind: usize, m: usize) -> usize
    requires { (n ≤ 8) × (m < n) }
    ensures { (result ≡ record_draws n kind m) × (result ≤ 1000) }
{
    if m == 0 {
        4 * (n * n) + 2 * n
    } else if kind == layout::COUNTED {
        let r = n - m;
        r * n + (r + 1) * (2 + r * n) + r
    } else {
        0
    }
}

// The plain count of the counted ones of k rankings: the sheet of every round, the order of going out and the winner.
pub fn count(rankings: &[u8], kinds: &[u8], n: usize, k: usize) -> Ended
    requires { (2 ≤ n) × (n ≤ 8) × (k ≤ 1000) × (k * n ≤ length rankings.now) × (k ≤ length kinds.now) }
    ensures { (result_of n result ≡ plain_count n (table_where k (λ b. is_counted (get_or kinds.now b 0)) (λ b. part rankings.now (b * n) n))) × Kept result.count × (result.count.gone.outs + 2 ≤ n) }
{
    let counted = kinds::counted(kinds, k) as u32;
    let mut count = Count::new();
    loop {
        let sheet = votes::tally(rankings, kinds, n, k, count.gone);
        if count.closes(sheet, n, counted) {
            return count.close(sheet, n);
        }
        count = count.next(sheet, count.leaves(sheet, n));
    }
}

// The draws and the bytes of the records of k ballots in round m.
#[tactic(auto, using(numbers::proofs::Sums::sum_more), unfolding(numbers::specs::Below::sum_below))]
pub fn measure_round(kinds: &[u8], n: usize, k: usize, m: usize) -> Measure
    requires { (n ≤ 8) × (m < n) × (k ≤ 1000) × (k ≤ length kinds.now) }
    ensures { (result.needed ≡ sum_below k (λ i. record_draws n (get_or kinds.now i 0) m)) × (result.length ≡ sum_below k (λ i. record_length n (get_or kinds.now i 0) m)) × (result.needed ≤ 1000000) × (result.length ≤ 10000000) }
{
    let mut needed = 0;
    let mut length = 0;
    for &kind in &kinds[..k] {
        let kind = usize::from(kind);
        needed += record_draws(n, kind, m);
        length += layout::record_length(n, kind, m);
    }
    Measure { needed, length }
}

// The draws that a board of so many rounds needs, and its length.
#[tactic(auto, using(crate::proofs::Counted::draws_more, crate::proofs::Counted::length_more), unfolding(jobs::specs::Job::round_draws, jobs::specs::Job::round_at))]
pub fn measure_of(kinds: &[u8], n: usize, k: usize, rounds: usize) -> Measure
    requires { (n ≤ 8) × (rounds ≤ n) × (k ≤ 1000) × (k ≤ length kinds.now) }
    ensures { (result.needed ≡ round_draws n (λ i. get_or kinds.now i 0) k rounds) × (result.length ≡ round_at n (λ i. get_or kinds.now i 0) k rounds) × (result.needed ≤ 10000000) }
{
    let mut needed = 0;
    let mut length = layout::HEADER_LENGTH;
    for m in 0..rounds {
        let round = measure_round(kinds, n, k, m);
        needed += round.needed;
        length += round.length + layout::sheet_length(n);
    }
    Measure { needed, length }
}

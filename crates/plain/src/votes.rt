// The counts of a round, from the rankings alone.
ghost use Rattle.std.specs.Prelude.{◌≡◌, cond, ℕ, suc, ◌+◌, ◌*◌, ◌≤◌, ◌<◌, eqb, length, get_or, take};
ghost use Rattle.rules.specs.Bytes.{part};
ghost use Rattle.rules.specs.Records.{is_counted};
ghost use Rattle.rules.specs.Count.{counts_of, table_where};
ghost use Rattle.count.specs.State.{list_of, Listed};

use crate::rankings;
use count::{Gone, Sheet};

// One vote more for a process, none for any other number.
fn vote(counts: &mut [u32; 8], c: usize)
    requires { (i : ℕ) → i < 8 → get_or counts.old i 0 < 100000 }
    ensures { (length counts.new ≡ 8) × ((i : ℕ) → i < 8 → get_or counts.new i 0 ≡ get_or counts.old i 0 + cond (eqb c (suc i)) 1 0) }
{
    if (1..=8).contains(&c) {
        counts[c - 1] += 1;
    }
}

// The counts of the counted ballots among k.
pub fn tally(rankings: &[u8], kinds: &[u8], n: usize, k: usize, gone: Gone) -> Sheet
    requires { (n ≤ 8) × (k ≤ 1000) × (k * n ≤ length rankings.now) × (k ≤ length kinds.now) × Listed gone }
    ensures { take n result.counts ≡ counts_of n (table_where k (λ b. is_counted (get_or kinds.now b 0)) (λ b. part rankings.now (b * n) n)) (list_of gone) }
{
    let mut counts = [0u32; 8];
    for b in 0..k {
        let counted = usize::from(kinds[b]) == layout::COUNTED;
        if counted {
            vote(&mut counts, rankings::first_in(rankings, b * n, n, gone));
        }
    }
    Sheet { counts }
}

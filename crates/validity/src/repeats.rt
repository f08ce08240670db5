// Draws that repeat: the x of a matrix are to be pairwise different.
ghost use Rattle.std.specs.Prelude.{◌≡◌, ◌+◌, ◌≤◌, ◌<◌, length, get_or};
ghost use Rattle.jobs.specs.Job.{record_secrets, round_draws};
ghost use Rattle.jobs.specs.Write.{different, rounds_different};

use plain::rounds;

// How many x what a ballot of a kind has in round m, from 0, needs: one a pair.
fn record_secrets(n: usize, kind: usize, m: usize) -> usize
    requires { (n ≤ 8) × (m < n) }
    ensures { (result ≡ record_secrets n kind m) × (result ≤ 64) }
{
    layout::records_of(kind, m) * ((n - m) * n)
}

// Whether so many draws from a place on are pairwise different. Each is compared only with those before it that have its low byte: `last` leads from
// a byte to the last of them, `prior` from a draw to the one before it, counted from 1, with 0 for none.
fn all_different(draws: &[u32], from: usize, size: usize) -> bool
    requires { (size ≤ 64) × (from + size ≤ length draws.now) }
    ensures { result ≡ different draws.now from size }
{
    let mut last = [0u8; 256];
    let mut prior = [0u8; 64];
    for j in 0..size {
        let x = draws[from + j];
        let b = (x % 256) as usize;
        let mut h = usize::from(last[b]);
        while 0 < h {
            let i = h - 1;
            if draws[from + i] == x {
                return false;
            }
            h = usize::from(prior[i]);
        }
        prior[j] = last[b];
        last[b] = (j + 1) as u8;
    }
    true
}

// Whether no matrix of a board of so many rounds repeats an x.
pub fn none_repeats(draws: &[u32], kinds: &[u8], n: usize, k: usize, rounds: usize) -> bool
    requires { (n ≤ 8) × (rounds ≤ n) × (k ≤ length kinds.now) × (round_draws n (λ i. get_or kinds.now i 0) k rounds ≤ length draws.now) }
    ensures { result ≡ rounds_different n (λ i. get_or kinds.now i 0) k rounds draws.now }
{
    let mut at = 0;
    for m in 0..rounds {
        for b in 0..k {
            let kind = usize::from(kinds[b]);
            if !all_different(draws, at, record_secrets(n, kind, m)) {
                return false;
            }
            at += rounds::record_draws(n, kind, m);
        }
    }
    true
}

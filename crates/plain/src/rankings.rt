// One ranking among many: the n bytes at a place.
ghost use Rattle.std.specs.Prelude.{◌≡◌, ◌+◌, ◌*◌, ◌≤◌, ◌<◌, length, take, MatchOption};
ghost use Rattle.rules.specs.Bytes.{part};
ghost use Rattle.rules.specs.Answers.{with_zeros};
ghost use Rattle.rules.specs.Count.{still_in, first_in};
ghost use Rattle.jobs.specs.Job.{Job, remaining, row_of};
ghost use Rattle.jobs.specs.Write.{first_bad};
ghost use Rattle.count.specs.State.{list_of, Listed};

use count::Gone;

// The first of k rankings, from 1, that lacks a process.
pub fn first_bad(rankings: &[u8], n: usize, k: usize) -> Option<usize>
    requires { (n ≤ 8) × (k ≤ 1000) × (k * n ≤ length rankings.now) }
    ensures { (job : Job) → job.n ≡ n → job.rankings ≡ rankings.now → MatchOption result (first_bad job k ≡ 0) (λ bad. (0 < bad) × (bad ≡ first_bad job k)) }
{
    for b in 0..k {
        if !openings::is_ranking(rankings, b * n, n) {
            return Some(b + 1);
        }
    }
    None
}

// Whether c is a process that has not gone out.
#[tactic(auto, unfolding(rules::specs::Count::still_in))]
fn is_in(c: usize, n: usize, gone: Gone) -> bool
    requires { Listed gone }
    ensures { result ≡ still_in n (list_of gone) c }
{
    (1..=n).contains(&c) && !gone.is_out(c)
}

// The first process on it that is still in, 0 where there is none: the rules' own answer, `first_in` of rules/specs/Count.antt.
pub fn first_in(rankings: &[u8], at: usize, n: usize, gone: Gone) -> usize
    requires { (at + n ≤ length rankings.now) × Listed gone }
    ensures { result ≡ first_in n (list_of gone) (part rankings.now at n) }
{
    rankings[at..at + n]
        .iter()
        .map(|&c| usize::from(c))
        .find(|&c| is_in(c, n, gone))
        .unwrap_or(0)
}

// Those on it that have not gone out, in order, and zeros after them.
pub fn still_in(rankings: &[u8], at: usize, n: usize, gone: Gone) -> [u8; 8]
    requires { (n ≤ 8) × (at + n ≤ length rankings.now) × Listed gone }
    ensures { result ≡ with_zeros (remaining (list_of gone) (part rankings.now at n)) }
{
    let mut list = [0u8; 8];
    let mut found = 0;
    for &c in &rankings[at..at + n] {
        if !gone.is_out(usize::from(c)) {
            list[found] = c;
            found += 1;
        }
    }
    list
}

// The place of a process among the first of a list.
pub fn row_of(list: [u8; 8], size: usize, a: u8) -> usize
    requires { size ≤ 8 }
    ensures { result ≡ row_of a (take size list) }
{
    list[..size].iter().position(|&x| x == a).unwrap_or(size)
}

// The kinds of the ballots, a byte each.
ghost use Rattle.std.specs.Prelude.{◌≡◌, cond, ◌≤◌, length, get_or};
ghost use Rattle.numbers.specs.Below.{sum_below};
ghost use Rattle.rules.specs.Records.{is_counted};

// How many of the first k ballots are counted.
pub fn counted(kinds: &[u8], k: usize) -> usize
    requires { k ≤ length kinds.now }
    ensures { (result ≡ sum_below k (λ i. cond (is_counted (get_or kinds.now i 0)) 1 0)) × (result ≤ k) }
{
    kinds[..k]
        .iter()
        .filter(|&&kind| usize::from(kind) == layout::COUNTED)
        .count()
}

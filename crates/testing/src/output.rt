// An output that is lent: before a case a pattern stands in it, by which what must stay is known again.
ghost use Rattle.std.specs.Prelude.{◌≡◌, true, ℕ, ◌%◌, ◌≤◌, ◌<◌, length, get_or};

// What stands at a place of the pattern.
fn mark(i: usize) -> u8
    ensures { result ≡ i % 251 }
{
    (i % 251) as u8
}

pub fn fill(out: &mut [u8])
    ensures { (i : ℕ) → i < length out.old → get_or out.new i 0 ≡ i % 251 }
{
    for (i, x) in out.iter_mut().enumerate() {
        *x = mark(i);
    }
}

// Whether the pattern stands from a place on.
pub fn kept(out: &[u8], from: usize) -> bool
    ensures { result ≡ true → (i : ℕ) → from ≤ i → i < length out.now → get_or out.now i 0 ≡ i % 251 }
{
    (from..out.len()).all(|i| out[i] == mark(i))
}

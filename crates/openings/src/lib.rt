// Whether bytes are a ranking, and whether pairs open to what is shown of them.
#![tactic(auto)]

ghost use Rattle.std.specs.Prelude.{◌≡◌, cond, ℕ, ◌+◌, ◌*◌, ◌≤◌, ◌<◌, eqb, length};
ghost use Rattle.numbers.specs.Below.{all_below};
ghost use Rattle.group.specs.Elements.{parameters_of};
ghost use Rattle.rules.specs.Bytes.{part};
ghost use Rattle.rules.specs.Count.{member, is_ranking};
ghost use Rattle.rules.specs.Audit.{pair_opens};
ghost use Rattle.openings.specs.Shown.{opens_at};

use group::{Element, Exponent, Group};

// Whether a process stands in a ranking.
fn lists(ranking: &[u8], process: usize) -> bool
    ensures { result ≡ member process ranking.now }
{
    ranking.iter().any(|&x| usize::from(x) == process)
}

// Whether every process stands among the n bytes at a place.
pub fn is_ranking(s: &[u8], at: usize, n: usize) -> bool
    requires { at + n ≤ length s.now }
    ensures { result ≡ is_ranking n (part s.now at n) }
{
    let ranking = &s[at..at + n];
    (0..n).all(|i| lists(ranking, i + 1))
}

// Whether a pair opens to an exponent and a value.
pub fn pair_opens(g: Group, b: Element, y: Element, x: Exponent, v: Exponent) -> bool
    requires { 0 < g.p }
    ensures { result ≡ pair_opens (parameters_of g) b.0 y.0 x.0 v.0 }
{
    let p = g.p;
    let due = group::mul(p, group::pow(p, g.g0, x), group::pow(p, g.g1, v));
    b.0 == due.0 && y.0 == group::pow(p, g.g1, x).0
}

// The value of a pair in the row of a process: 1 in that process's column, counted from 0.
fn value_of(process: u8, column: usize) -> u32
    requires { column < 8 }
    ensures { result ≡ cond (eqb process (column + 1)) 1 0 }
{
    u32::from(usize::from(process) == column + 1)
}

// Whether the pairs of a matrix of n rows open to the exponents and the ranking shown at a place.
pub fn matrix_opens(s: &[u8], g: Group, n: usize, pairs: usize, shown: usize) -> bool
    requires { (0 < g.p) × (0 < n) × (n ≤ 8) × (pairs + 8 * (n * n) ≤ length s.now) × (shown + 4 * (n * n) + n ≤ length s.now) }
    ensures { result ≡ all_below (n * n) (opens_at s.now (parameters_of g) n pairs shown) }
{
    let ranking = shown + 4 * (n * n);
    (0..n * n).all(|t| {
        let place = pairs + 8 * t;
        let b = fields::as_element(s, place);
        let y = fields::as_element(s, place + 4);
        let x = fields::as_exponent(s, shown + 4 * t);
        let v = Exponent(value_of(s[ranking + t / n], t % n));
        pair_opens(g, b, y, x, v)
    })
}

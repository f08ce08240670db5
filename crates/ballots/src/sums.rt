// Sums of secrets: the witnesses of rows, columns, sheets and shifts.
ghost use Rattle.std.specs.Prelude.{◌≡◌, ◌+◌, ◌-◌, ◌*◌, ◌%◌, ◌^◌, ◌≤◌, ◌<◌, length};
ghost use Rattle.proving.specs.Plans.{DrawsBelow};
ghost use Rattle.ballots.specs.Parts.{sum_but, Witnessed};

use crate::shift::Shift;
use group::Exponent;
use statements::claims;

// The sum of draws at a stride but for one, modulo q.
pub fn sum_of(q: u32, draws: &[u32], at: usize, stride: usize, count: usize, but: usize) -> Exponent
    requires { (0 < q) × (count ≤ 1000) × (stride ≤ 10000) × (at < 2 ^ 40) × (at + stride * (count - 1) < length draws.now) }
    ensures { result.0 ≡ sum_but draws.now at stride count but % q }
{
    let mut sum: u64 = 0;
    for i in 0..count {
        if i != but {
            sum += u64::from(draws[at + stride * i]);
        }
    }
    group::reduce(sum, q)
}

// How much of one secret is left past another, modulo q.
fn past(q: u32, x: Exponent, y: Exponent) -> Exponent
    requires { (0 < q) × (y.0 < q) }
    ensures { result.0 ≡ (x.0 + (q - y.0)) % q }
{
    group::add(q, x, Exponent(q - y.0))
}

// The witnesses of a shift's true branch.
pub fn witnesses(q: u32, s: Shift, draws: &[u32]) -> [Exponent; 64]
    requires n_nonzero { (0 < s.n) × (s.n ≤ 8) × (s.rows < 8) × (s.column < s.n) × (s.struck ≤ s.rows) }
    requires draws_below { DrawsBelow q draws.now s.old ((s.rows + 1) * s.n) × DrawsBelow q draws.now s.new (s.rows * s.n) }
    ensures { Witnessed q s.n draws.now s.old s.new s.column s.struck (2 + s.rows * s.n) result }
{
    let n = s.n;
    let count = s.rows * n;
    let row = s.old + s.struck * n;
    let mut w = [Exponent(0); 64];
    w[0] = Exponent(draws[row + s.column]);
    w[1] = sum_of(q, draws, row, 1, n, s.column);
    for c in 0..count {
        let from = claims::source_of(n, s.struck, c);
        let x = draws[s.new + c];
        let y = draws[s.old + from];
        w[2 + c] = past(q, Exponent(x), Exponent(y));
    }
    w
}

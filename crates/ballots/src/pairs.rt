// The pairs of a matrix, from the processes of its rows and the draws.
ghost use Rattle.std.specs.Prelude.{◌≡◌, [], ◌∷◌, ◌++◌, ◌+◌, ◌*◌, ◌^◌, ◌≤◌, ◌<◌, length, get_or};
ghost use Rattle.group.specs.Arithmetic.{pow_mod};
ghost use Rattle.group.specs.Elements.{parameters_of};
ghost use Rattle.rules.specs.Bytes.{bytes2, bytes4};
ghost use Rattle.rules.specs.Group.{paired};
ghost use Rattle.rules.specs.Records.{BA, SH};
ghost use Rattle.jobs.specs.Records.{opened, matrix_of, pair_bytes};
ghost use Rattle.output.specs.Written.{written};

use group::{Exponent, Group};

// What the pair at row i and column j opens to.
pub fn opened(list: [u8; 8], i: usize, j: usize) -> u32
    requires { (i < 8) × (j < 8) }
    ensures { (result ≡ opened (λ k. get_or list k 0) i j) × (result < 2) }
{
    let process = j + 1;
    if usize::from(list[i]) == process {
        1
    } else {
        0
    }
}

// The pair of x and v.
fn put_pair(out: &mut [u8], g: Group, x: Exponent, v: Exponent)
    requires { (0 < g.p) × (8 ≤ length out.old) }
    ensures { out.new ≡ written (bytes4 (paired (parameters_of g) x.0 v.0) ++ bytes4 (pow_mod g.p g.g1.0 x.0)) out.old }
{
    let b = group::mul(g.p, group::pow(g.p, g.g0, x), group::pow(g.p, g.g1, v));
    let y = group::pow(g.p, g.g1, x);
    output::put_number4(out, b.0);
    output::put_number4(&mut out[4..], y.0);
}

pub fn write_pairs(
    out: &mut [u8],
    g: Group,
    n: usize,
    rows: usize,
    list: [u8; 8],
    draws: &[u32],
    from: usize,
)
    requires { (0 < g.p) × (0 < n) × (n ≤ 8) × (rows ≤ 8) × (8 * (rows * n) ≤ length out.old) × (from < 2 ^ 40) × (from + rows * n ≤ length draws.now) }
    ensures { out.new ≡ written (pair_bytes n (matrix_of (parameters_of g) n (λ k. get_or list k 0) draws.now from) rows) out.old }
{
    let count = rows * n;
    for c in 0..count {
        let at = 8 * c;
        let x = draws[from + c];
        let v = opened(list, c / n, c % n);
        put_pair(&mut out[at..], g, Exponent(x), Exponent(v));
    }
}

// What a BA starts with: its mark, its number, its kind and its pairs.
pub fn put_ballot_front(out: &mut [u8], number: u32, kind: u8, pairs: &[u8])
    requires { 5 + length pairs.now ≤ length out.old }
    ensures { out.new ≡ written (BA ++ bytes2 number ++ (kind ∷ []) ++ pairs.now) out.old }
{
    output::put_two(out, layout::BA);
    output::put_number2(&mut out[2..], number);
    output::put_byte(&mut out[4..], kind);
    output::put_bytes(&mut out[5..], pairs);
}

// What a SH starts with: its mark, its number and its pairs.
pub fn put_shift_front(out: &mut [u8], number: u32, pairs: &[u8])
    requires { 4 + length pairs.now ≤ length out.old }
    ensures { out.new ≡ written (SH ++ bytes2 number ++ pairs.now) out.old }
{
    output::put_two(out, layout::SH);
    output::put_number2(&mut out[2..], number);
    output::put_bytes(&mut out[4..], pairs);
}

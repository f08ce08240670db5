// What each proof claims, over pairs that stand at places of a lent slice.
ghost use Rattle.std.specs.Prelude.{◌≡◌, ◌+◌, ◌*◌, ◌-◌, ◌/◌, ◌%◌, ◌≤◌, ◌<◌, ◌^◌, length};
ghost use Rattle.group.specs.Elements.{parameters_of};
ghost use Rattle.rules.specs.Bytes.{number4};
ghost use Rattle.rules.specs.Claims.{matrix_at, source, entry_claim, line_claim, shift_claim};
ghost use Rattle.statements.specs.Values.{statement_of, Ready};
ghost use Rattle.statements.specs.Lines.{line_start, line_stride};
ghost use Rattle.statements.specs.Claims.{claim_of, Run, Shifts, InverseTable, Within};

use crate::{Setup, Statement};
use group::{Element, Exponent};

// A shift's matrices: the places of the one before and of the new one, the rows of the new one, its columns n, and the column a that has gone out.
#[derive(Clone, Copy)]
pub struct Struck {
    pub before: usize,
    pub new: usize,
    pub rows: usize,
    pub n: usize,
    pub a: usize,
}

// Which proof, over pairs that stand on the board: b at a place, Y four bytes past it.
#[derive(Clone, Copy)]
pub enum Claim {
    // The pair at a place is of 0 or of 1.
    Entry {
        at: usize,
    },
    // So many pairs sum to 1: the first at a place, each a stride of bytes past the one before.
    Line {
        at: usize,
        stride: usize,
        count: usize,
    },
    // The new matrix is the one before with the row struck that has its 1 in the column gone out.
    Shift(Struck),
}

#[tactic(auto, using(crate::proofs::PlainClaims::entry_zero))]
fn claimed_entry(s: &[u8], g: Setup, at: usize, l: usize) -> Statement
    requires ready { Ready g }
    requires at_in_bounds { at + 8 ≤ length s.now }
    ensures { statement_of result ≡ entry_claim (parameters_of g.group) (number4 s.now at) (number4 s.now (at + 4)) l }
{
    let b = fields::as_element(s, at);
    let right = fields::as_element(s, at + 4);
    let left = if l == 0 {
        b
    } else {
        group::mul(g.group.p, b, g.inverse)
    };
    Statement { left, right }
}

// A line of a matrix: the pair that it starts with, and how far each is past the one before.
#[derive(Clone, Copy)]
pub struct Line {
    pub start: usize,
    pub stride: usize,
}

// Line t of a matrix of n rows and n columns: row t, or else column t - n.
#[tactic(auto, unfolding(crate::specs::Lines::by_line))]
pub fn line_of(n: usize, t: usize) -> Line
    requires { (t < n + n) × (n * n < 2 ^ 64) }
    ensures { (result.start ≡ line_start n t) × (result.stride ≡ line_stride n t) }
{
    if t < n {
        Line {
            start: t * n,
            stride: 1,
        }
    } else {
        Line {
            start: t - n,
            stride: n,
        }
    }
}

fn claimed_line(s: &[u8], g: Setup, at: usize, stride: usize, count: usize) -> Statement
    requires ready { Ready g }
    requires run { Run s.now at stride count }
    ensures { statement_of result ≡ line_claim (parameters_of g.group) count (λ j. number4 s.now (at + stride * j)) (λ j. number4 s.now (at + 4 + stride * j)) }
{
    let p = g.group.p;
    let b = fields::product(s, p, at, stride, count);
    Statement {
        left: group::mul(p, b, g.inverse),
        right: fields::product(s, p, at + 4, stride, count),
    }
}

// The pair before that the new pair t comes from, where row l is struck.
pub fn source_of(n: usize, l: usize, t: usize) -> usize
    requires { (0 < n) × (t + n < 2 ^ 64) }
    ensures { result ≡ source l (t / n) * n + t % n }
{
    if t / n < l { t } else { t + n }
}

fn claimed_shift(
    s: &[u8],
    inverses: &[Element],
    g: Setup,
    m: Struck,
    l: usize,
    k: usize,
) -> Statement
    requires ready { Ready g }
    requires shifts { Shifts s.now inverses.now (parameters_of g.group) m l k }
    ensures { statement_of result ≡ shift_claim (parameters_of g.group) m.n (matrix_at s.now m.n m.before) (matrix_at s.now m.n m.new) m.a l k }
{
    let p = g.group.p;
    match k {
        0 => claimed_entry(s, g, m.before + 8 * (l * m.n + m.a), 1),
        1 => {
            let row = m.before + 8 * (l * m.n);
            Statement {
                left: fields::product_besides(s, p, row, 8, m.n, m.a),
                right: fields::product_besides(s, p, row + 4, 8, m.n, m.a),
            }
        }
        _ => {
            let t = k - 2;
            let place = m.new + 8 * t;
            let from = 2 * source_of(m.n, l, t);
            Statement {
                left: group::mul(p, fields::as_element(s, place), inverses[from]),
                right: group::mul(p, fields::as_element(s, place + 4), inverses[from + 1]),
            }
        }
    }
}

// What a claim says of branch l, statement k.
#[tactic(auto, unfolding(crate::specs::Claims::Within, crate::specs::Claims::claim_of))]
pub fn claimed(
    s: &[u8],
    inverses: &[Element],
    g: Setup,
    claim: Claim,
    l: usize,
    k: usize,
) -> Statement
    requires ready { Ready g }
    requires within { Within s.now inverses.now (parameters_of g.group) claim l k }
    ensures { statement_of result ≡ claim_of s.now (parameters_of g.group) claim l k }
{
    match claim {
        Claim::Entry { at } => claimed_entry(s, g, at, l),
        Claim::Line { at, stride, count } => claimed_line(s, g, at, stride, count),
        Claim::Shift(m) => claimed_shift(s, inverses, g, m, l, k),
    }
}

// The inverses of the words of a matrix, with zeros up to 128.
pub fn inverse_table(s: &[u8], p: u32, q: u32, at: usize, words: usize) -> [Element; 128]
    requires { (0 < p) × (0 < q) × (words ≤ 128) × (at + 4 * words ≤ length s.now) }
    ensures { InverseTable s.now p q at words result }
{
    let mut table = [Element(0); 128];
    let e = Exponent(q - 1);
    for (u, inverse) in table[..words].iter_mut().enumerate() {
        *inverse = group::pow(p, fields::as_element(s, at + 4 * u), e);
    }
    table
}

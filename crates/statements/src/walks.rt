// The walk of a record's fields, left to right.
ghost use Rattle.std.specs.Prelude.{◌≡◌, ℕ, ◌+◌, ◌*◌, ◌≤◌, Bool, length, ltb};
ghost use Rattle.numbers.specs.Below.{all_below};
ghost use Rattle.rules.specs.Bytes.{number4};
ghost use Rattle.rules.specs.Proofs.{proof_fields};
ghost use Rattle.statements.specs.Walks.{Strides, walk_if, pair_fields, pairs_fields, exponents_fields, statement_fields, branch_fields};

// So many blocks of fields, one after another: a step goes from the place of a block to the next, and nothing is left to walk where one is refused.
fn walk<F: Fn(usize) -> Option<usize>>(count: usize, at: usize, step: F) -> Option<usize>
    requires { (good : ℕ → Bool) × (size : ℕ) × Strides (F.pre step) (F.post step) good size (at + size * count) }
    ensures { (good : ℕ → Bool) (size : ℕ) → Strides (F.pre step) (F.post step) good size (at + size * count) → result ≡ walk_if (all_below count (λ i. good (at + size * i))) (at + size * count) }
{
    let mut place = at;
    for _ in 0..count {
        place = step(place)?;
    }
    Some(place)
}

// An exponent.
fn exponent_field(board: &[u8], at: usize, q: u32) -> Option<usize>
    requires { at + 4 ≤ length board.now }
    ensures { result ≡ walk_if (ltb (number4 board.now at) q) (at + 4) }
{
    let (_, next) = fields::exponent(board, at, q)?;
    Some(next)
}

// Two elements: b and Y, or t1 and t2.
fn pair_fields(board: &[u8], at: usize, p: u32, q: u32) -> Option<usize>
    requires { at + 8 ≤ length board.now }
    ensures { result ≡ walk_if (pair_fields board.now at p q) (at + 8) }
{
    let (_, second) = fields::element(board, at, p, q)?;
    let (_, next) = fields::element(board, second, p, q)?;
    Some(next)
}

// Pairs, one after another.
pub fn pairs_fields(board: &[u8], at: usize, count: usize, p: u32, q: u32) -> Option<usize>
    requires { at + 8 * count ≤ length board.now }
    ensures { result ≡ walk_if (pairs_fields board.now at count p q) (at + 8 * count) }
{
    walk(count, at, |place| pair_fields(board, place, p, q))
}

// Exponents, one after another.
pub fn exponents_fields(board: &[u8], at: usize, count: usize, q: u32) -> Option<usize>
    requires { at + 4 * count ≤ length board.now }
    ensures { result ≡ walk_if (exponents_fields board.now at count q) (at + 4 * count) }
{
    walk(count, at, |place| exponent_field(board, place, q))
}

// The commitments and the response of a statement.
fn statement_fields(board: &[u8], at: usize, p: u32, q: u32) -> Option<usize>
    requires { at + 12 ≤ length board.now }
    ensures { result ≡ walk_if (statement_fields board.now at p q) (at + 12) }
{
    let response = pair_fields(board, at, p, q)?;
    exponent_field(board, response, q)
}

// The challenge of a branch, and its statements.
fn branch_fields(board: &[u8], at: usize, statements: usize, p: u32, q: u32) -> Option<usize>
    requires { at + (4 + 12 * statements) ≤ length board.now }
    ensures { result ≡ walk_if (branch_fields board.now at statements p q) (at + (4 + 12 * statements)) }
{
    let first = exponent_field(board, at, q)?;
    walk(
        statements,
        first,
        |place| statement_fields(board, place, p, q),
    )
}

// The branches of a proof, or of proofs one after another.
pub fn proof_fields(
    board: &[u8],
    at: usize,
    branches: usize,
    statements: usize,
    p: u32,
    q: u32,
) -> Option<usize>
    requires { at + branches * (4 + 12 * statements) ≤ length board.now }
    ensures { result ≡ walk_if (proof_fields board.now at branches statements p q) (at + branches * (4 + 12 * statements)) }
{
    walk(branches, at, |place| {
        branch_fields(board, place, statements, p, q)
    })
}

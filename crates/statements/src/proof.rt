// The check of a proof: statements of equal logarithms (Chaum and Pedersen 1992) in branches of which one is true (Cramer, Damgård and Schoenmakers 1994).
ghost use Rattle.std.specs.Prelude.{◌≡◌, ℕ, ◌+◌, ◌*◌, ◌-◌, ◌≤◌, ◌<◌, List, ◌++◌, length};
ghost use Rattle.sha256.specs.Feed.{Fed};
ghost use Rattle.sha256.specs.Message.{sha256};
ghost use Rattle.group.specs.Elements.{parameters_of};
ghost use Rattle.rules.specs.Bytes.{number4};
ghost use Rattle.rules.specs.Proofs.{Context, context_bytes, proof_holds};
ghost use Rattle.statements.specs.Values.{Ready};
ghost use Rattle.statements.specs.Claims.{claim_of, Within};

use crate::claims::Claim;
use crate::{Setup, Shown, claims};
use group::{Element, Exponent};
use sha256::Hasher;

// The bases of the powers that a proof speaks of.
#[derive(Clone, Copy)]
pub struct Bases {
    pub first: Element,
    pub second: Element,
}

// The commitments and the response of the statement at a place.
fn shown_at(board: &[u8], place: usize) -> Shown
    requires { place + 12 ≤ length board.now }
    ensures { (result.t1.0 ≡ number4 board.now place) × (result.t2.0 ≡ number4 board.now (place + 4)) × (result.r.0 ≡ number4 board.now (place + 8)) }
{
    let t1 = fields::as_element(board, place);
    let t2 = fields::as_element(board, place + 4);
    let r = fields::as_exponent(board, place + 8);
    Shown { t1, t2, r }
}

// Where a proof stands, its branches, and the statements of each.
#[derive(Clone, Copy)]
pub struct Shape {
    pub at: usize,
    pub branches: usize,
    pub statements: usize,
}

// A proof, whose label and context are fed to the hasher: A and B of a statement are worked out once, for its equations and for the message. The first
// failing statement leaves both loops, over branches and statements.
pub fn proof_holds(
    board: &[u8],
    inverses: &[Element],
    prefix: Hasher,
    bases: Bases,
    shape: Shape,
    g: Setup,
    claim: Claim,
) -> bool
    requires ready { Ready g }
    requires statements_in_bounds { shape.at + shape.branches * (4 + 12 * shape.statements) ≤ length board.now }
    requires by_index { (l i : ℕ) → l < shape.branches → i < shape.statements → Within board.now inverses.now (parameters_of g.group) claim l i }
    ensures { (label : List ℕ) (c : Context) → Fed prefix (label ++ context_bytes c) → result ≡ proof_holds board.now shape.at shape.branches shape.statements sha256 label c g.group.p g.group.q bases.first.0 bases.second.0 (claim_of board.now (parameters_of g.group) claim) }
{
    let mut h = prefix;
    let mut sum = Exponent(0);
    let mut holds = true;
    'branches: for l in 0..shape.branches {
        let from = shape.at + l * (4 + 12 * shape.statements);
        let e = fields::as_exponent(board, from);
        sum = group::add(g.group.q, sum, e);
        for i in 0..shape.statements {
            let st = claims::claimed(board, inverses, g, claim, l, i);
            let shown = shown_at(board, from + 4 + 12 * i);
            if !crate::statement_holds(g.group.p, bases.first, bases.second, st, shown, e) {
                holds = false;
                break 'branches;
            }
            h = challenges::feed_statement(h, st.left, st.right, shown.t1, shown.t2);
        }
    }
    if !holds {
        return false;
    }
    let digest = h.finish();
    sum.0 == fields::challenge(&digest, g.group.q).0
}

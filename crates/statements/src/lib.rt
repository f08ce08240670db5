// Statements: what a proof claims of the matrices on a board, and its check.
#![tactic(auto)]

ghost use Rattle.std.specs.Prelude.{◌≡◌, ◌-◌, ◌<◌};
ghost use Rattle.rules.specs.Proofs.{statement_holds};
ghost use Rattle.statements.specs.Values.{statement_of, Ready};

use group::{Element, Exponent, Group};

pub mod claims;
pub mod proof;
pub mod walks;

// The group, with the inverse of g1 worked out once.
#[derive(Clone, Copy)]
pub struct Setup {
    pub group: Group,
    pub inverse: Element,
}

impl Setup {
    pub fn new(group: Group) -> Setup
        requires { (0 < group.p) × (0 < group.q) }
        ensures { (result.group ≡ group) × Ready result }
    {
        let inverse = group::pow(group.p, group.g1, Exponent(group.q - 1));
        Setup { group, inverse }
    }
}

// A pair (A, B) of which some w has A = g0^w and B = g1^w.
#[derive(Clone, Copy)]
pub struct Statement {
    pub left: Element,
    pub right: Element,
}

// What a proof shows for a statement: its commitments and its response.
#[derive(Clone, Copy)]
pub struct Shown {
    pub t1: Element,
    pub t2: Element,
    pub r: Exponent,
}

// One statement, at any two bases.
#[tactic(auto, unfolding(rules::specs::Proofs::statement_holds))]
pub fn statement_holds(
    p: u32,
    base0: Element,
    base1: Element,
    st: Statement,
    shown: Shown,
    e: Exponent,
) -> bool
    requires { 0 < p }
    ensures { result ≡ statement_holds p base0.0 base1.0 (statement_of st) shown.t1.0 shown.t2.0 e.0 shown.r.0 }
{
    let r = shown.r;
    group::pow(p, base0, r).0 == group::mul(p, shown.t1, group::pow(p, st.left, e)).0
        && group::pow(p, base1, r).0 == group::mul(p, shown.t2, group::pow(p, st.right, e)).0
}

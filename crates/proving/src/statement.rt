// One statement: its commitments and its response.
ghost use Rattle.std.specs.Prelude.{◌≡◌, ◌≤◌, ◌<◌, length};
ghost use Rattle.group.specs.Elements.{parameters_of};
ghost use Rattle.jobs.specs.Prover.{false_commitment};
ghost use Rattle.statements.specs.Values.{statement_of};
ghost use Rattle.proving.specs.Plans.{drafted, Stated};

use group::{Element, Exponent, Group};
use sha256::Hasher;
use statements::Statement;

// A false branch's commitment follows from its equation.
fn commitment(g: Group, base: Element, side: Element, e: Exponent, r: Exponent) -> Element
    requires { (0 < g.p) × (e.0 < g.q) }
    ensures { result.0 ≡ false_commitment (parameters_of g) base.0 side.0 e.0 r.0 }
{
    group::mul(
        g.p,
        group::pow(g.p, base, r),
        group::pow(g.p, side, Exponent(g.q - e.0)),
    )
}

// The commitments and the response; the statement is fed to the hash with its commitments.
fn put_statement(
    out: &mut [u8],
    h: Hasher,
    s: Statement,
    t1: Element,
    t2: Element,
    r: Exponent,
) -> Hasher
    requires { 12 ≤ length out.old }
    ensures { Stated (statement_of s) (record { t1 = t1.0; t2 = t2.0 }) r.0 out.old out.new h result }
{
    output::put_number4(out, t1.0);
    output::put_number4(&mut out[4..], t2.0);
    output::put_number4(&mut out[8..], r.0);
    challenges::feed_statement(h, s.left, s.right, t1, t2)
}

// A statement before the known branch's challenge is known: in the known branch r is the nonce, in another e and r are drawn.
pub fn put_draft(
    out: &mut [u8],
    h: Hasher,
    g: Group,
    s: Statement,
    known: bool,
    e: Exponent,
    r: Exponent,
) -> Hasher
    requires { (12 ≤ length out.old) × (0 < g.p) × (e.0 < g.q) }
    ensures { Stated (statement_of s) (drafted (parameters_of g) (statement_of s) known e.0 r.0) r.0 out.old out.new h result }
{
    if known {
        let t1 = group::pow(g.p, g.g0, r);
        let t2 = group::pow(g.p, g.g1, r);
        put_statement(out, h, s, t1, t2, r)
    } else {
        let t1 = commitment(g, g.g0, s.left, e, r);
        let t2 = commitment(g, g.g1, s.right, e, r);
        put_statement(out, h, s, t1, t2, r)
    }
}

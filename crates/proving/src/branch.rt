// One branch of a proof: its challenge, and its statements.
ghost use Rattle.std.specs.Prelude.{◌≡◌, false, cond, ◌+◌, ◌*◌, ◌^◌, ◌≤◌, ◌<◌, length, get_or};
ghost use Rattle.group.specs.Elements.{parameters_of};
ghost use Rattle.rules.specs.Bytes.{part};
ghost use Rattle.statements.specs.Claims.{claim_of};
ghost use Rattle.output.specs.Written.{written};
ghost use Rattle.jobs.specs.Prover.{true_response, branch_bytes};
ghost use Rattle.proving.specs.Plans.{Branched, answers, plan_draws, draft_challenge, draft_commitments, draft_responses};

use crate::{Inputs, Plan, statement};
use group::Exponent;
use sha256::Hasher;
use statements::claims;

// Where a branch's draws start.
pub fn branch_draws(plan: Plan, l: usize) -> usize
    requires { (l < 9) × (plan.statements < 100) × (plan.from < 2 ^ 40) }
    ensures { result ≡ plan_draws plan l }
{
    let at = plan.from + l * (1 + plan.statements);
    if plan.known < l { at - 1 } else { at }
}

// The challenge that a branch is written with at first: 0 for the known one, else the draw at a place.
fn first_challenge(draws: &[u32], at: usize, known: bool) -> Exponent
    requires { known ≡ false → at < length draws.now }
    ensures { result.0 ≡ cond known 0 (get_or draws.now at 0) }
{
    if known {
        Exponent(0)
    } else {
        Exponent(draws[at])
    }
}

// Where its nonces or its responses start.
fn after_challenge(at: usize, known: bool) -> usize
    requires { at < 2 ^ 50 }
    ensures { result ≡ cond known at (at + 1) }
{
    if known { at } else { at + 1 }
}

// A branch before the known one's challenge is known: of the known one 0 stands for the challenge and the nonces for the responses, those of another are drawn.
pub fn commit_branch(out: &mut [u8], h: Hasher, inputs: Inputs, l: usize) -> Hasher
    requires { (l < inputs.plan.branches) × (4 + 12 * inputs.plan.statements ≤ length out.old) }
    ensures { let i = inputs.entry in Branched (claim_of i.page.now (parameters_of i.setup.group) i.plan.claim l) (draft_challenge i.plan i.draws.now l) i.plan.statements (draft_commitments (parameters_of i.setup.group) (claim_of i.page.now (parameters_of i.setup.group) i.plan.claim) i.plan i.draws.now l) (draft_responses i.plan i.draws.now l) out.old out.new h result }
{
    let plan = inputs.plan;
    let at = branch_draws(plan, l);
    let known = l == plan.known;
    let e = first_challenge(inputs.draws, at, known);
    let first = after_challenge(at, known);
    output::put_number4(out, e.0);
    let mut k = h;
    for i in 0..plan.statements {
        let s = claims::claimed(inputs.page, inputs.inverses, inputs.setup, plan.claim, l, i);
        let place = 4 + 12 * i;
        let r = Exponent(inputs.draws[first + i]);
        k = statement::put_draft(&mut out[place..], k, inputs.setup.group, s, known, e, r);
    }
    k
}

fn response(q: u32, e: Exponent, nonce: Exponent, witness: Exponent) -> Exponent
    requires { 0 < q }
    ensures { result.0 ≡ true_response q nonce.0 e.0 witness.0 }
{
    group::add(q, nonce, group::mul(q, e, witness))
}

// The known branch's challenge and responses, beside the commitments that stand there.
pub fn answer(
    out: &mut [u8],
    q: u32,
    e: Exponent,
    statements: usize,
    witness: [Exponent; 64],
    draws: &[u32],
    at: usize,
)
    requires q_nonzero { (0 < q) × (statements ≤ 64) × (4 + 12 * statements ≤ length out.old) }
    requires statements_in_bounds { at + statements ≤ length draws.now }
    ensures { out.new ≡ written (branch_bytes e.0 statements (λ i. part out.old (4 + 12 * i) 8) (answers q e.0 witness draws.now at)) out.old }
{
    output::put_number4(out, e.0);
    for i in 0..statements {
        let place = 12 + 12 * i;
        let r = response(q, e, Exponent(draws[at + i]), witness[i]);
        output::put_number4(&mut out[place..], r.0);
    }
}

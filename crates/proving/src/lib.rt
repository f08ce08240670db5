// A proof made in its place on the board by one who knows the witness of one branch: the statements are fed to the hash with their commitments as these arise, and the
// true branch's challenge and responses are written last.
#![tactic(auto)]

ghost use Rattle.std.specs.Prelude.{◌≡◌, ℕ, ◌+◌, ◌*◌, ◌^◌, ◌≤◌, ◌<◌, List, ◌++◌, length};
ghost use Rattle.sha256.specs.Feed.{Fed};
ghost use Rattle.group.specs.Elements.{parameters_of};
ghost use Rattle.rules.specs.Proofs.{Context, context_bytes};
ghost use Rattle.statements.specs.Values.{Ready};
ghost use Rattle.statements.specs.Claims.{claim_of};
ghost use Rattle.output.specs.Written.{written};
ghost use Rattle.proving.specs.Plans.{PlanDraws, Planned, Planned-prop, Committed, false_complements, proof_of};

use group::{Element, Exponent};
use sha256::Hasher;
use statements::Setup;
use statements::claims::Claim;

mod branch;
mod statement;

// A proof to be made: its size, the branch whose witness is known, where its draws start, and what it claims.
#[derive(Clone, Copy)]
pub struct Plan {
    pub branches: usize,
    pub statements: usize,
    pub known: usize,
    pub from: usize,
    pub claim: Claim,
}

// What a proof is made from: the page on which the pairs of its claim stand, the inverses that the claim needs, and the draws.
#[derive(Clone, Copy)]
pub struct Inputs<'a> {
    pub setup: Setup,
    pub page: &'a [u8],
    pub inverses: &'a [Element],
    pub draws: &'a [u32],
    pub plan: Plan,
    pub ghost ready: { Ready setup },
    pub ghost planned: { Planned (parameters_of setup.group) page.now inverses.now plan draws.now } by { Planned-prop (parameters_of setup.group) page.now inverses.now plan draws.now },
}

// What the drawn challenges take from the whole one: the sum of their distances to q.
fn false_complements(q: u32, plan: Plan, draws: &[u32]) -> u64
    requires { PlanDraws q plan draws.now }
    ensures { (result ≡ false_complements q plan draws.now plan.branches) × (result < 2 ^ 40) }
{
    let mut sum = 0;
    for l in 0..plan.branches {
        if l != plan.known {
            let at = branch::branch_draws(plan, l);
            sum += u64::from(q - draws[at]);
        }
    }
    sum
}

// Every branch as it is before the known one's challenge is known; its statements are fed to the hash after the prefix.
fn commit(out: &mut [u8], prefix: Hasher, inputs: Inputs) -> Hasher
    requires { inputs.plan.branches * (4 + 12 * inputs.plan.statements) ≤ length out.old }
    ensures { let i = inputs.entry in Committed (parameters_of i.setup.group) (claim_of i.page.now (parameters_of i.setup.group) i.plan.claim) i.plan i.draws.now out.old out.new prefix result }
{
    let width = 4 + 12 * inputs.plan.statements;
    let mut h = prefix;
    for l in 0..inputs.plan.branches {
        let place = l * width;
        h = branch::commit_branch(&mut out[place..], h, inputs, l);
    }
    h
}

// A whole proof of a claim about pairs that stand on a page; the label and the proof's context are fed to the hasher, and the witnesses of the known branch
// stand first among the 64.
pub fn make(out: &mut [u8], prefix: Hasher, inputs: Inputs, witness: [Exponent; 64])
    requires { (inputs.plan.branches * (4 + 12 * inputs.plan.statements) ≤ length out.old) × (inputs.plan.statements ≤ 64) }
    ensures { let i = inputs.entry in (label : List ℕ) (c : Context) → Fed prefix (label ++ context_bytes c) → out.new ≡ written (proof_of label c (parameters_of i.setup.group) (claim_of i.page.now (parameters_of i.setup.group) i.plan.claim) i.plan witness i.draws.now) out.old }
{
    let plan = inputs.plan;
    let draws = inputs.draws;
    let q = inputs.setup.group.q;
    let digest = commit(out, prefix, inputs).finish();
    let whole = fields::challenge(&digest, q);
    let sum = false_complements(q, plan, draws);
    let e = group::reduce(u64::from(whole.0) + sum, q);
    let at = branch::branch_draws(plan, plan.known);
    let place = plan.known * (4 + 12 * plan.statements);
    branch::answer(&mut out[place..], q, e, plan.statements, witness, draws, at);
}

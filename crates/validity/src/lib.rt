// The numbers of a job, its tests, and the group that it fixes.
#![tactic(auto)]

pub mod repeats;

ghost use Rattle.std.specs.Prelude.{◌≡◌, ◌&&◌, ◌||◌, true, false, List, [], ℕ, ◌<◌, leb, ltb, eqb, length, get_or, MatchResult};
ghost use Rattle.numbers.specs.Below.{all_below};
ghost use Rattle.sha256.specs.Message.{sha256};
ghost use Rattle.group.specs.Elements.{parameters_of};
ghost use Rattle.rules.specs.Group.{generators};
ghost use Rattle.rules.specs.Records.{is_counted, is_audited};
ghost use Rattle.jobs.specs.Job.{group_of};
ghost use Rattle.validity.specs.Jobs.{job_of};
ghost use Rattle.validity.specs.Tests.{JobTested};

use group::{Element, Group};
use jobs::Unwritten;
use plain::{kinds, rankings};
use rules::Refusal;

// The numbers of a job: of processes and ballots, p, q, g0 and the counter.
#[derive(Clone, Copy)]
pub struct Job {
    pub n: usize,
    pub k: usize,
    pub p: u32,
    pub q: u32,
    pub g0: Element,
    pub counter: u8,
}

// The group of a job, g1 worked out.
fn group_of(job: Job, label: &[u8]) -> Group
    requires { (0 < job.p) × (0 < job.q) }
    ensures { parameters_of result ≡ group_of sha256 (job_of job label.now [] [] []) }
{
    Group {
        p: job.p,
        q: job.q,
        g0: job.g0,
        g1: parameters::derived(label, job.p, job.q, job.g0, job.counter),
    }
}

// The label's length, and the rules on g0 and g1.
fn label_good(label: &[u8], counter: u8, g: Group) -> bool
    requires { (0 < g.p) × (0 < g.q) }
    ensures { result ≡ (eqb (length label.now) 32 && generators sha256 label.now counter (parameters_of g)) }
{
    label.len() == 32 && parameters::generators_good(label, counter, g)
}

fn is_kind(kind: usize) -> bool
    ensures { result ≡ (is_counted kind || is_audited kind) }
{
    kind == layout::COUNTED || kind == layout::AUDITED
}

// Whether the kinds are so many, each counted or audited.
fn kinds_good(kinds: &[u8], k: usize) -> bool
    ensures { result ≡ (eqb (length kinds.now) k && all_below k (λ b. is_counted (get_or kinds.now b 0) || is_audited (get_or kinds.now b 0))) }
{
    kinds.len() == k && kinds.iter().all(|&kind| is_kind(usize::from(kind)))
}

// The refusal that is due where a test fails; the rankings' own test alone names a ranking.
fn due(good: bool, refusal: Refusal) -> Result<(), Unwritten>
    ensures { MatchResult result (λ _. good ≡ true) (λ e. (good ≡ false) × (e.refusal ≡ refusal) × (e.ranking ≡ 0)) }
{
    if good {
        Ok(())
    } else {
        Err(Unwritten {
            refusal,
            ranking: 0,
        })
    }
}

// The group of a job that passes the tests up to the kinds, in their order.
pub fn up_to_kinds(
    job: Job,
    label: &[u8],
    rankings: &[u8],
    kinds: &[u8],
) -> Result<Group, Unwritten>
    ensures { (draws : List ℕ) → JobTested (job_of job label.now rankings.now kinds.now draws) result }
{
    due(
        parameters::sizes_good(layout::ranked(), job.n, job.k),
        Refusal::Sizes,
    )?;
    due(
        parameters::orders_good(job.n, job.k, job.p, job.q),
        Refusal::Orders,
    )?;
    let group = group_of(job, label);
    due(label_good(label, job.counter, group), Refusal::Generators)?;
    due(rankings.len() == job.k * job.n, Refusal::Rankings)?;
    if let Some(bad) = rankings::first_bad(rankings, job.n, job.k) {
        return Err(Unwritten {
            refusal: Refusal::Rankings,
            ranking: bad,
        });
    }
    due(kinds_good(kinds, job.k), Refusal::Kind)?;
    due(kinds::counted(kinds, job.k) != 0, Refusal::NoneCounted)?;
    Ok(group)
}

// Whether so many draws are there, each from 1 to q - 1.
pub fn draws_good(draws: &[u32], needed: usize, q: u32) -> bool
    ensures { result ≡ (leb needed (length draws.now) && all_below needed (λ d. leb 1 (get_or draws.now d 0) && ltb (get_or draws.now d 0) q)) }
{
    needed <= draws.len() && draws[..needed].iter().all(|&x| 1 <= x && x < q)
}

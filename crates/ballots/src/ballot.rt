// A ballot's first record.
ghost use Rattle.std.specs.Prelude.{◌≡◌, ◌+◌, ◌*◌, ◌^◌, ◌≤◌, ◌<◌, length, get_or};
ghost use Rattle.group.specs.Elements.{parameters_of};
ghost use Rattle.rules.specs.Records.{counted_length, ballot_length};
ghost use Rattle.statements.specs.Values.{Ready};
ghost use Rattle.output.specs.Written.{written};
ghost use Rattle.proving.specs.Plans.{DrawsBelow};
ghost use Rattle.jobs.specs.Records.{matrix_of, ballot_bytes};
ghost use Rattle.sha256.specs.Message.{sha256};
ghost use Rattle.ballots.specs.Parts.{Paged, body_bytes};

use crate::prover::Prover;
use crate::{audit, pairs};
use group::Group;
use sha256::Hasher;
use statements::Setup;

// A ballot: its number and kind, the process of each row, and where its record's draws start.
#[derive(Clone, Copy)]
pub struct Ballot {
    pub n: usize,
    pub number: u32,
    pub kind: u8,
    pub list: [u8; 8],
    pub from: usize,
}

// The pairs go to a page's start.
fn put_matrix(page: &mut [u8], g: Group, b: Ballot, draws: &[u32])
    requires { (0 < g.p) × (0 < b.n) × (b.n ≤ 8) × (b.from < 2 ^ 40) × (b.from + b.n * b.n ≤ length draws.now) × (length page.old ≡ 512) }
    ensures { (length page.new ≡ 512) × Paged page.new 0 b.n b.n (matrix_of (parameters_of g) b.n (λ k. get_or b.list k 0) draws.now b.from) }
{
    pairs::write_pairs(page, g, b.n, b.n, b.list, draws, b.from);
}

// The record up to its proofs, where a counted ballot's ends.
fn write_body(out: &mut [u8], label: &[u8], g: Setup, b: Ballot, draws: &[u32])
    requires ready { Ready g × (0 < b.n) × (b.n ≤ 8) × (counted_length b.n ≤ length out.old) }
    requires draws_below { DrawsBelow g.group.q draws.now b.from (4 * (b.n * b.n) + 2 * b.n) }
    ensures { out.new ≡ written (body_bytes label.now (parameters_of g.group) b.n b.number b.kind (λ k. get_or b.list k 0) draws.now b.from) out.old }
{
    let mut page = [0u8; 512];
    put_matrix(&mut page, g.group, b, draws);
    let size = 8 * (b.n * b.n);
    pairs::put_ballot_front(out, b.number, b.kind, &page[..size]);
    let prover = Prover {
        labelled: Hasher::new().update(label),
        setup: g,
        ballot: b,
        page: &page,
        draws,
    };
    let proofs = 5 + size;
    prover.write_proofs(&mut out[proofs..]);
}

pub fn write_ballot(out: &mut [u8], label: &[u8], g: Setup, b: Ballot, draws: &[u32])
    requires ready { Ready g × (0 < b.n) × (b.n ≤ 8) × (ballot_length b.n b.kind ≤ length out.old) }
    requires draws_below { DrawsBelow g.group.q draws.now b.from (4 * (b.n * b.n) + 2 * b.n) }
    ensures { out.new ≡ written (ballot_bytes sha256 label.now (parameters_of g.group) b.n b.number b.kind (λ k. get_or b.list k 0) draws.now b.from) out.old }
{
    write_body(out, label, g, b, draws);
    if usize::from(b.kind) == layout::AUDITED {
        let at = layout::counted_length(b.n);
        audit::write_audit(&mut out[at..], b, draws);
    }
}

// The proofs of a ballot: of its entries, and of its rows and columns, of which the sum of the line's secrets is the witness.
ghost use Rattle.std.specs.Prelude.{◌≡◌, ℕ, ◌+◌, ◌*◌, ◌≤◌, ◌<◌, List, length, get_or};
ghost use Rattle.numbers.specs.Below.{concat_below};
ghost use Rattle.sha256.specs.Feed.{Fed};
ghost use Rattle.sha256.specs.Message.{sha256};
ghost use Rattle.group.specs.Elements.{parameters_of};
ghost use Rattle.statements.specs.Values.{Ready};
ghost use Rattle.output.specs.Written.{written};
ghost use Rattle.proving.specs.Plans.{DrawsBelow};
ghost use Rattle.jobs.specs.Records.{matrix_of, ballot_proof_bytes};
ghost use Rattle.ballots.specs.Parts.{Paged, entry_in, line_of};

use crate::ballot::Ballot;
use crate::{pairs, sums};
use group::Exponent;
use proving::{Inputs, Plan};
use sha256::Hasher;
use statements::claims::Claim;
use statements::{Setup, claims};

// One who proves a ballot: the label is fed to the hasher, the ballot's pairs stand on the page, and its secrets are among the draws.
#[derive(Clone, Copy)]
pub struct Prover<'a> {
    pub labelled: Hasher,
    pub setup: Setup,
    pub ballot: Ballot,
    pub page: &'a [u8],
    pub draws: &'a [u32],
    pub ghost ready: { Ready setup },
    pub ghost some: { 0 < ballot.n },
    pub ghost few: { ballot.n ≤ 8 },
    pub ghost drawn: { DrawsBelow setup.group.q draws.now ballot.from (4 * (ballot.n * ballot.n) + 2 * ballot.n) },
    pub ghost long: { 512 ≤ length page.now },
    pub ghost paged: { Paged page.now 0 ballot.n ballot.n (matrix_of (parameters_of setup.group) ballot.n (λ k. get_or ballot.list k 0) draws.now ballot.from) },
}

impl Prover<'_> {
    // The entry proof of the c-th pair.
    #[tactic(auto, using(rules::proofs::Sizes::cells))]
    fn write_entry(self, out: &mut [u8], c: usize)
        requires { (c < self.ballot.n * self.ballot.n) × (32 ≤ length out.old) }
        ensures { let b = self.entry.ballot in (m : List ℕ) → Fed self.entry.labelled m → out.new ≡ written (entry_in m (parameters_of self.entry.setup.group) b.n b.number (λ k. get_or b.list k 0) self.entry.draws.now b.from c) out.old }
    {
        let b = self.ballot;
        let at = b.from + c;
        let v = pairs::opened(b.list, c / b.n, c % b.n);
        let plan = Plan {
            branches: 2,
            statements: 1,
            known: v as usize,
            from: b.from + b.n * b.n + 3 * c,
            claim: Claim::Entry { at: 8 * c },
        };
        let inputs = Inputs {
            setup: self.setup,
            page: self.page,
            inverses: &[],
            draws: self.draws,
            plan,
        };
        let prefix = challenges::feed_context(self.labelled, layout::BA, b.number, 1, c);
        // the witness of the one statement, in every place
        proving::make(out, prefix, inputs, [Exponent(self.draws[at]); 64]);
    }

    #[tactic(auto, using(rules::proofs::Sizes::cells))]
    fn write_entries(self, out: &mut [u8])
        requires { 32 * (self.ballot.n * self.ballot.n) ≤ length out.old }
        ensures { let b = self.entry.ballot in (m : List ℕ) → Fed self.entry.labelled m → out.new ≡ written (concat_below (b.n * b.n) (entry_in m (parameters_of self.entry.setup.group) b.n b.number (λ k. get_or b.list k 0) self.entry.draws.now b.from)) out.old }
    {
        let count = self.ballot.n * self.ballot.n;
        for c in 0..count {
            let at = 32 * c;
            self.write_entry(&mut out[at..], c);
        }
    }

    // The proof of row t, or else of column t - n, behind the entries' proofs.
    #[tactic(auto, using(rules::proofs::Sizes::cells))]
    fn write_line(self, out: &mut [u8], t: usize)
        requires { (t < self.ballot.n + self.ballot.n) × (16 ≤ length out.old) }
        ensures { let b = self.entry.ballot in (m : List ℕ) → Fed self.entry.labelled m → out.new ≡ written (line_of m (parameters_of self.entry.setup.group) b.n b.number (λ k. get_or b.list k 0) self.entry.draws.now b.from t) out.old }
    {
        let b = self.ballot;
        let n = b.n;
        let line = claims::line_of(n, t);
        let first = b.from + line.start;
        let sum = sums::sum_of(self.setup.group.q, self.draws, first, line.stride, n, n);
        let claim = Claim::Line {
            at: 8 * line.start,
            stride: 8 * line.stride,
            count: n,
        };
        let plan = Plan {
            branches: 1,
            statements: 1,
            known: 0,
            from: b.from + 4 * (n * n) + t,
            claim,
        };
        let inputs = Inputs {
            setup: self.setup,
            page: self.page,
            inverses: &[],
            draws: self.draws,
            plan,
        };
        let prefix = challenges::feed_context(self.labelled, layout::BA, b.number, 1, n * n + t);
        // the witness of the one statement, in every place
        proving::make(out, prefix, inputs, [sum; 64]);
    }

    fn write_lines(self, out: &mut [u8])
        requires { 32 * self.ballot.n ≤ length out.old }
        ensures { let b = self.entry.ballot in (m : List ℕ) → Fed self.entry.labelled m → out.new ≡ written (concat_below (b.n + b.n) (line_of m (parameters_of self.entry.setup.group) b.n b.number (λ k. get_or b.list k 0) self.entry.draws.now b.from)) out.old }
    {
        let count = self.ballot.n + self.ballot.n;
        for t in 0..count {
            let at = 16 * t;
            self.write_line(&mut out[at..], t);
        }
    }

    // The proofs of the ballot's entries, its rows and its columns.
    #[tactic(auto, using(rules::proofs::Sizes::cells))]
    pub fn write_proofs(self, out: &mut [u8])
        requires { 32 * (self.ballot.n * self.ballot.n) + 32 * self.ballot.n ≤ length out.old }
        ensures { let b = self.entry.ballot in (m : List ℕ) → Fed self.entry.labelled m → out.new ≡ written (ballot_proof_bytes sha256 m (parameters_of self.entry.setup.group) b.n b.number (λ k. get_or b.list k 0) self.entry.draws.now b.from) out.old }
    {
        let lines = 32 * (self.ballot.n * self.ballot.n);
        self.write_entries(out);
        self.write_lines(&mut out[lines..]);
    }
}

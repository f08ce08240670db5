// A ballot's record in a later round: its pairs and the proof of the shift.
ghost use Rattle.std.specs.Prelude.{◌≡◌, ℕ, ◌+◌, ◌*◌, ◌≤◌, List, length};
ghost use Rattle.sha256.specs.Feed.{Fed};
ghost use Rattle.group.specs.Elements.{parameters_of};
ghost use Rattle.statements.specs.Values.{Ready};
ghost use Rattle.output.specs.Written.{written};
ghost use Rattle.ballots.specs.Parts.{Paged, Shifting, old_matrix, new_matrix, shift_proof_of, shift_of};

use crate::{pairs, sums};
use proving::{Inputs, Plan};
use sha256::Hasher;
use statements::claims::{Claim, Struck};
use statements::{Setup, claims};

// A shift: its round, from 1, its ballot's number, the processes of the rows before and after, the row struck, the column gone out, and where the draws of the
// two records start.
#[derive(Clone, Copy)]
pub struct Shift {
    pub n: usize,
    pub rows: usize,
    pub round: u8,
    pub number: u32,
    pub before: [u8; 8],
    pub after: [u8; 8],
    pub struck: usize,
    pub column: usize,
    pub old: usize,
    pub new: usize,
}

// One who proves a shift, and has the secrets of both records among the draws.
#[derive(Clone, Copy)]
struct Shifter<'a> {
    setup: Setup,
    shift: Shift,
    draws: &'a [u32],
    ghost ready: { Ready setup },
    ghost shifting: { Shifting setup.group.p setup.group.q shift draws.now },
}

impl Shifter<'_> {
    // The matrix before goes to a page's start, and the new one to 512.
    fn put_matrices(self, page: &mut [u8])
        requires { length page.old ≡ 1024 }
        ensures { let s = self.entry.shift in (length page.new ≡ 1024) × Paged page.new 0 (s.rows + 1) s.n (old_matrix (parameters_of self.entry.setup.group) s self.entry.draws.now) × Paged page.new 512 s.rows s.n (new_matrix (parameters_of self.entry.setup.group) s self.entry.draws.now) }
    {
        let g = self.setup.group;
        let s = self.shift;
        pairs::write_pairs(page, g, s.n, s.rows + 1, s.before, self.draws, s.old);
        pairs::write_pairs(&mut page[512..], g, s.n, s.rows, s.after, self.draws, s.new);
    }

    fn write_proof(self, out: &mut [u8], labelled: Hasher, page: &[u8])
        requires ready { ((self.shift.rows + 1) * (28 + 12 * (self.shift.rows * self.shift.n)) ≤ length out.old) × (1024 ≤ length page.now) }
        requires paged { Paged page.now 0 (self.shift.rows + 1) self.shift.n (old_matrix (parameters_of self.setup.group) self.shift self.draws.now) × Paged page.now 512 self.shift.rows self.shift.n (new_matrix (parameters_of self.setup.group) self.shift self.draws.now) }
        ensures { (m : List ℕ) → Fed labelled m → out.new ≡ written (shift_proof_of m (parameters_of self.entry.setup.group) self.entry.shift self.entry.draws.now) out.old }
    {
        let g = self.setup.group;
        let s = self.shift;
        let n = s.n;
        let rows = s.rows;
        let inverses = claims::inverse_table(page, g.p, g.q, 0, 2 * ((rows + 1) * n));
        let claim = Claim::Shift(Struck {
            before: 0,
            new: 512,
            rows,
            n,
            a: s.column,
        });
        let plan = Plan {
            branches: rows + 1,
            statements: 2 + rows * n,
            known: s.struck,
            from: s.new + rows * n,
            claim,
        };
        let inputs = Inputs {
            setup: self.setup,
            page,
            inverses: &inverses,
            draws: self.draws,
            plan,
        };
        let prefix = challenges::feed_context(labelled, layout::SH, s.number, s.round, 0);
        proving::make(out, prefix, inputs, sums::witnesses(g.q, s, self.draws));
    }
}

pub fn write_shift(out: &mut [u8], label: &[u8], g: Setup, s: Shift, draws: &[u32])
    requires ready { Ready g × Shifting g.group.p g.group.q s draws.now }
    requires n_in_bounds { 4 + 8 * (s.rows * s.n) + (s.rows + 1) * (28 + 12 * (s.rows * s.n)) ≤ length out.old }
    ensures { out.new ≡ written (shift_of label.now (parameters_of g.group) s draws.now) out.old }
{
    let shifter = Shifter {
        setup: g,
        shift: s,
        draws,
    };
    let count = s.rows * s.n;
    let mut page = [0u8; 1024];
    shifter.put_matrices(&mut page);
    let end = 512 + 8 * count;
    pairs::put_shift_front(out, s.number, &page[512..end]);
    let labelled = Hasher::new().update(label);
    let at = 4 + 8 * count;
    shifter.write_proof(&mut out[at..], labelled, &page);
}

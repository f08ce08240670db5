// The BA record.
ghost use Rattle.std.specs.Prelude.{◌≡◌, ◌+◌, ◌*◌, ◌≤◌, ◌<◌, length};
ghost use Rattle.sha256.specs.Message.{sha256};
ghost use Rattle.group.specs.Elements.{parameters_of};
ghost use Rattle.rules.specs.Records.{kind_at, counted_length, ballot_length};
ghost use Rattle.rules.specs.Header.{ranked};
ghost use Rattle.rules.specs.Ballot.{ballot_fault};
ghost use Rattle.header.specs.Heads.{head_of, HeaderKnown};
ghost use Rattle.records.specs.Passes.{Passes};
ghost use Rattle.records.specs.Parts.{entry_good, line_good, ballot_proofs_at, ballot_fields_at, shown_at};

use header::Head;
use rules::Refusal;
use statements::claims::Claim;
use statements::proof::Shape;
use statements::{claims, walks};

// A BA record on the board, of a kind.
#[derive(Clone, Copy)]
struct Ballot<'a> {
    board: &'a [u8],
    h: Head,
    at: usize,
    kind: usize,
    ghost known: { HeaderKnown ranked board.now h },
    ghost fits: { at + ballot_length h.n kind ≤ length board.now },
}

impl<'a> Ballot<'a> {
    // The proof of entry t, by rows.
    fn entry_good(&self, t: usize) -> bool
        requires { t < self.now.h.n * self.now.h.n }
        ensures { result ≡ entry_good self.now.board.now self.now.h self.now.at t }
    {
        let prefix = crate::prefix(self.board, self.at, layout::BA, 1, t);
        let shape = Shape {
            at: self.at + 5 + 8 * (self.h.n * self.h.n) + 32 * t,
            branches: 2,
            statements: 1,
        };
        let claim = Claim::Entry {
            at: self.at + 5 + 8 * t,
        };
        crate::proof_good(self.board, &[], prefix, shape, self.h, claim)
    }

    // The proof of row t, or of column t - n.
    fn line_good(&self, t: usize) -> bool
        requires { t < self.now.h.n + self.now.h.n }
        ensures { result ≡ line_good self.now.board.now self.now.h self.now.at t }
    {
        let n = self.h.n;
        let entries = n * n;
        let prefix = crate::prefix(self.board, self.at, layout::BA, 1, entries + t);
        let shape = Shape {
            at: self.at + 5 + 40 * entries + 16 * t,
            branches: 1,
            statements: 1,
        };
        let line = claims::line_of(n, t);
        let claim = Claim::Line {
            at: self.at + 5 + 8 * line.start,
            stride: 8 * line.stride,
            count: n,
        };
        crate::proof_good(self.board, &[], prefix, shape, self.h, claim)
    }

    fn proofs_good(&self) -> bool
        ensures { result ≡ ballot_proofs_at self.now.board.now self.now.h self.now.at }
    {
        let n = self.h.n;
        let count = n * n;
        (0..count).all(|t| self.entry_good(t)) && (0..n + n).all(|t| self.line_good(t))
    }

    // Its pairs and proofs, and the exponents that an audited one shows.
    fn fields_good(&self) -> bool
        ensures { result ≡ ballot_fields_at self.now.board.now self.now.h.n self.now.h.setup.group.p self.now.h.setup.group.q self.now.at self.now.kind }
    {
        let n = self.h.n;
        let group = self.h.setup.group;
        let branches = n * n * 2 + (n + n);
        let shown = self.at + layout::counted_length(n);
        crate::fields_good(self.board, self.at + 5, n * n, branches, 1, group)
            && (self.kind != layout::AUDITED
                || walks::exponents_fields(self.board, shown, n * n, group.q).is_some())
    }

    // What an audited one shows: a ranking, to which and to its exponents its pairs open.
    fn shown_good(&self) -> bool
        ensures { result ≡ shown_at self.now.board.now (parameters_of self.now.h.setup.group) self.now.h.n self.now.at self.now.kind }
    {
        let n = self.h.n;
        let shown = self.at + layout::counted_length(n);
        self.kind != layout::AUDITED
            || openings::is_ranking(self.board, shown + 4 * (n * n), n)
                && openings::matrix_opens(self.board, self.h.setup.group, n, self.at + 5, shown)
    }
}

// The record of the ballot with a number, at its place.
pub fn read_ballot(board: &[u8], h: Head, at: usize, number: usize) -> Result<usize, Refusal>
    requires { HeaderKnown ranked board.now h × (at ≤ length board.now) }
    ensures { Passes board.now (ballot_fault sha256 board.now (head_of board.now h) at number) (at + ballot_length h.n (kind_at board.now at)) result }
{
    frames::ballot_frame(board, at, h.n, number)?;
    let kind = frames::kind(board, at);
    let ballot = Ballot { board, h, at, kind };
    if !ballot.fields_good() {
        return Err(Refusal::Field);
    }
    if !ballot.proofs_good() {
        return Err(Refusal::Proof);
    }
    if !ballot.shown_good() {
        return Err(Refusal::Opening);
    }
    Ok(at + layout::ballot_length(h.n, kind))
}

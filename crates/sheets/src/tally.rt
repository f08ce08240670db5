// The products of the first rows of a round's counted ballots, by column, and how many these are, carried from record to record.
ghost use Rattle.std.specs.Prelude.{◌≡◌, ◌+◌, ◌*◌, ◌≤◌, ◌<◌, length};
ghost use Rattle.rules.specs.Claims.{matrix_at};
ghost use Rattle.rules.specs.Sheet as said;
ghost use Rattle.statements.specs.Values.{Ready};
ghost use Rattle.sheets.specs.Tallies.{Tallied};

use group::Element;
use header::Head;

// Two arrays, as the rules' Tally has two (rules/specs/Sheet.antt), and not one of pairs.
#[derive(Clone, Copy)]
pub struct Tally {
    pub b: [Element; 8],
    pub y: [Element; 8],
    pub ballots: usize,
}

impl Tally {
    // Of no ballot.
    pub fn none(h: Head) -> Tally
        requires { Ready h.setup }
        ensures { Tallied h.setup.group.p 8 result said.no_row × (result.ballots ≡ 0) }
    {
        let one = Element(1 % h.setup.group.p);
        Tally {
            b: [one; 8],
            y: [one; 8],
            ballots: 0,
        }
    }

    // With the first row of the matrix at a place.
    pub fn with_row(self, board: &[u8], h: Head, at: usize) -> Tally
        requires { Ready h.setup × (h.n ≤ 8) × (at + 8 * h.n ≤ length board.now) × (self.ballots < 1000) }
        ensures { (result.ballots ≡ self.ballots + 1) × ((T : said.Tally) → Tallied h.setup.group.p h.n self T → Tallied h.setup.group.p h.n result (said.with_row T (matrix_at board.now h.n at))) }
    {
        let p = h.setup.group.p;
        let mut b = self.b;
        let mut y = self.y;
        for i in 0..h.n {
            let place = at + 8 * i;
            b[i] = group::mul(p, b[i], fields::as_element(board, place));
            y[i] = group::mul(p, y[i], fields::as_element(board, place + 4));
        }
        Tally {
            b,
            y,
            ballots: self.ballots + 1,
        }
    }
}

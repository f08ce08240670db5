// The standing count by value: each sheet takes it and hands back the next.
#![tactic(auto)]

mod orders;

ghost use Rattle.std.specs.Prelude.{◌≡◌, Bool, ℕ, ◌+◌, ◌*◌, ◌-◌, ◌≤◌, ◌<◌, take, drop, replicate};
ghost use Rattle.rules.specs.Count.{member, start, ended, behind, pick, leaves, wins, closes, majority};

pub use orders::first_of;
use orders::{fewer, passes};

// The counts of a round, by process.
#[derive(Clone, Copy)]
pub struct Sheet {
    pub counts: [u32; 8],
}

// How many have gone out, and who, in order, with zeros up to 8.
#[derive(Clone, Copy)]
pub struct Gone {
    pub outs: usize,
    pub order: [u8; 8],
    pub ghost few: { outs ≤ 8 },
    pub ghost zeros: { drop outs order ≡ replicate (8 - outs) 0 },
}

// Those gone out, and the sheets of as many rounds.
#[derive(Clone, Copy)]
pub struct Count {
    pub gone: Gone,
    pub sheets: [Sheet; 8],
}

// A count that has ended, with the sheet of its last round beside the others, and the winner.
#[derive(Clone, Copy)]
pub struct Ended {
    pub count: Count,
    pub winner: usize,
}

impl Gone {
    ghost use Rattle.count.specs.State.{list_of, Listed};

    // Whether process c has gone out.
    pub fn is_out(self, c: usize) -> bool
        requires { Listed self }
        ensures { result ≡ member c (list_of self) }
    {
        self.order[..self.outs].iter().any(|&x| usize::from(x) == c)
    }
}

impl Count {
    ghost use Rattle.count.specs.State.{counts_on, list_of, standing_of, result_of, went_out, Kept};

    // None has gone out yet.
    pub fn new() -> Count
        ensures { (result.gone.outs ≡ 0) × Kept result × ((n : ℕ) → standing_of n result ≡ start) }
    {
        Count {
            gone: Gone {
                outs: 0,
                order: [0u8; 8],
            },
            sheets: [Sheet { counts: [0u32; 8] }; 8],
        }
    }

    // Whether process a is behind b: by the counts of this round, and where they are equal by the earlier rounds.
    fn behind(self, sheet: Sheet, a: usize, b: usize) -> bool
        requires { (1 ≤ a) × (a ≤ 8) × (1 ≤ b) × (b ≤ 8) }
        ensures { (n : ℕ) → a ≤ n → b ≤ n → result ≡ behind (standing_of n self) (counts_on n sheet) a b }
    {
        let x = sheet.counts[a - 1];
        let y = sheet.counts[b - 1];
        if x != y {
            return x < y;
        }
        fewer(self.sheets, self.gone.outs, a, b)
    }

    // By rising number, each process still in takes the place of the best so far where it is better; 0 where none is in: the rules' own answer,
    // `leaves` and `wins` of rules/specs/Count.antt.
    fn pick<F: Fn(usize, usize) -> bool>(self, n: usize, better: F) -> usize
        requires few { n ≤ 8 }
        requires callable { (best c : ℕ) → 1 ≤ best → best ≤ 8 → 1 ≤ c → c ≤ 8 → F.pre better best c }
        ensures picked { (test : (best c : ℕ) → Bool) → ((best c : ℕ) (b : Bool) → 1 ≤ best → best ≤ n → 1 ≤ c → c ≤ n → F.post better best c b → b ≡ test best c) → result ≡ pick (list_of self.gone) test n }
        ensures within { result ≤ n }
    {
        let mut best = 0;
        // not `1..=n`, which ends in two ways, so that the proof would tell each step twice
        for c in 1..n + 1 {
            if !self.gone.is_out(c) && (best == 0 || better(best, c)) {
                best = c;
            }
        }
        best
    }

    // Who goes out: of those still in the one with the lowest count, of equal ones that with fewer in the latest earlier round where they
    // differ, and where all rounds agree the highest number; 0 where none is in.
    pub fn leaves(self, sheet: Sheet, n: usize) -> usize
        requires { Kept self × (n ≤ 8) }
        ensures { (result ≡ leaves n (standing_of n self) (counts_on n sheet)) × (result ≤ n) }
    {
        self.pick(n, |best, c| !self.behind(sheet, best, c))
    }

    // Who wins: of those still in the one with the highest count, of equal ones that with more in the latest earlier round where they
    // differ, and where all rounds agree the lowest number; 0 where none is in.
    pub fn wins(self, sheet: Sheet, n: usize) -> usize
        requires { Kept self × (n ≤ 8) }
        ensures { (result ≡ wins n (standing_of n self) (counts_on n sheet)) × (result ≤ n) }
    {
        self.pick(n, |best, c| self.behind(sheet, best, c))
    }

    // A process still in has more than half.
    fn majority(self, sheet: Sheet, n: usize, k: u32) -> bool
        requires { n ≤ 8 }
        ensures { result ≡ majority n (standing_of n self) (counts_on n sheet) k }
    {
        (0..n).any(|i| passes(self.gone.is_out(i + 1), sheet.counts[i], k))
    }

    // The round with these counts is the last.
    pub fn closes(self, sheet: Sheet, n: usize, k: u32) -> bool
        requires { Kept self × (2 ≤ n) × (n ≤ 8) }
        ensures { result ≡ closes n (standing_of n self) (counts_on n sheet) k }
    {
        self.gone.outs + 1 == n - 1 || self.majority(sheet, n, k)
    }

    // The next standing count: the sheet is kept, and process out has gone out.
    pub fn next(self, sheet: Sheet, out: usize) -> Count
        requires { Kept self × (self.gone.outs < 8) × (out ≤ 8) }
        ensures { (result.gone.outs ≡ self.gone.outs + 1) × Kept result × ((n : ℕ) → standing_of n result ≡ went_out (standing_of n self) out (counts_on n sheet)) }
    {
        let at = self.gone.outs;
        let mut order = self.gone.order;
        let mut sheets = self.sheets;
        order[at] = out as u8;
        sheets[at] = sheet;
        Count {
            gone: Gone {
                outs: at + 1,
                order,
            },
            sheets,
        }
    }

    // The count ended by the sheet of its last round.
    pub fn close(self, sheet: Sheet, n: usize) -> Ended
        requires { Kept self × (self.gone.outs < 8) × (n ≤ 8) }
        ensures { (result.count.gone ≡ self.gone) × Kept result.count × (result_of n result ≡ ended n (standing_of n self) (counts_on n sheet)) }
    {
        let winner = self.wins(sheet, n);
        let mut sheets = self.sheets;
        sheets[self.gone.outs] = sheet;
        Ended {
            count: Count {
                gone: self.gone,
                sheets,
            },
            winner,
        }
    }
}

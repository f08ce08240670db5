// The writer's answer. What is written is a definition, in specs/; specs/Replies.antt gives the number and the values of each case.
#![tactic(auto)]

use rules::Refusal;
use std::fmt;

// The board's length, and its result with the order of going out, zeros up to 8.
#[derive(Clone, Copy)]
pub struct Written {
    pub length: usize,
    pub rounds: usize,
    pub winner: usize,
    pub order: [u8; 8],
}

// Why no board is written; ranking: with 13 the first bad one from 1, else 0.
#[derive(Clone, Copy)]
pub struct Unwritten {
    pub refusal: Refusal,
    pub ranking: usize,
}

// As it is printed: the number, and the ranking.
impl fmt::Display for Unwritten {
    fn fmt<W: fmt::Write>(&self, f: &mut fmt::Formatter<W>) -> fmt::Result {
        let number = rules::refusal_number(self.refusal);
        let ranking = self.ranking;
        write!(f, "refused {number} {ranking}")
    }
}

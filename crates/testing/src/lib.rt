// What the test programs share: their input read and cut into pieces, outputs filled with a pattern, and answers printed on a line.
#![tactic(auto)]

pub mod input;
pub mod output;
pub mod print;

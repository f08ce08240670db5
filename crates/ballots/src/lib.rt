// The records of a ballot: its first matrix with its proofs, and a later one with the proof of its shift.
#![tactic(auto)]

mod audit;
pub mod ballot;
mod pairs;
mod prover;
pub mod shift;
pub mod sums;

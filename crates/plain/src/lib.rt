// The plain count of rankings, a byte a place, and what the board of a job comes to.
#![tactic(auto)]

pub mod kinds;
pub mod rankings;
pub mod rounds;
mod votes;

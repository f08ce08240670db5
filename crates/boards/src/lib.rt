// The board of a job, record by record, each into the unwritten rest of a lent output.
#![tactic(auto)]

ghost use Rattle.statements.specs.Values.{Ready};

use statements::Setup;

mod header;
mod records;
pub mod rounds;
mod sheet;

// What a board's header shows: its size, the counter that made its g1, and its group.
#[derive(Clone, Copy)]
pub struct Head {
    pub n: usize,
    pub k: usize,
    pub counter: u8,
    pub setup: Setup,
    pub ghost ready: { Ready setup },
}

// What a board is written from: its header, its label, and the rankings, the kinds and the draws of its ballots.
#[derive(Clone, Copy)]
pub struct Entries<'a> {
    pub head: Head,
    pub label: &'a [u8],
    pub rankings: &'a [u8],
    pub kinds: &'a [u8],
    pub draws: &'a [u32],
}

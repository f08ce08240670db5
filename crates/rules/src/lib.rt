// The answers of the checker, of the search for receipts and of the count in sentences, and the kinds of boards. The rules themselves are definitions, in specs/; specs/Answers.antt gives the number and the values of each case.
#![tactic(auto)]

ghost use Rattle.std.specs.Prelude.{◌≡◌};
ghost use Rattle.rules.specs.Answers.{refusal_number};

use std::fmt;

// Why a board, a job, a list of digests or a list of names is refused, with its number in the table.
#[derive(Clone, Copy, PartialEq, Eq, Debug)]
pub enum Refusal {
    // Bytes left are fewer than the record's length.
    Length = 1,
    // The mark differs from the one due.
    Mark = 2,
    // n or K is out of range.
    Sizes = 3,
    // A rule on p and q is broken.
    Orders = 4,
    // A rule on g0 or g1 is broken, or the label's length.
    Generators = 5,
    // The number or the round is not the one due.
    Number = 6,
    // A field is no group element, or not below q.
    Field = 7,
    // A proof fails.
    Proof = 8,
    // A count is above the number of counted ballots.
    Count = 9,
    // A tally equation fails.
    Tally = 10,
    // The process out is not the one due.
    Out = 11,
    // Bytes remain.
    Remain = 12,
    // The rankings' length is wrong, or a ranking lacks a process.
    Rankings = 13,
    // Draws are too few, or one is outside 1 to q - 1.
    Draws = 14,
    // The output is shorter than what is to be written.
    Output = 15,
    // The digests are more than 500, out of order, or no multiple of 32 bytes.
    Digests = 16,
    // A ballot is neither counted nor audited, or the kinds are not one a ballot.
    Kind = 17,
    // An audited ballot does not open to what it shows.
    Opening = 18,
    // No ballot is counted.
    NoneCounted = 19,
    // Two x of a matrix are equal.
    Repeat = 20,
    // The names are not one of 1 to 20 letters a process, each with a line feed after it, all different.
    Names = 21,
    // n or K is in range, and past the smaller limits that an entry to the checker holds boards to.
    Limits = 23,
}

// The number of a refusal in the table.
pub fn refusal_number(r: Refusal) -> usize
    ensures { result ≡ refusal_number r }
{
    r as usize
}

// A kind of board: the mark of its header; what 3 tests, the least and the most processes, and the most ballots; and what 23 tests after that, how many
// processes are shown, and how many ballots stored.
#[derive(Clone, Copy)]
pub struct Model {
    pub mark: [u8; 2],
    pub least: usize,
    pub most: usize,
    pub ballots: usize,
    pub shows: usize,
    pub stores: usize,
}

// What an accepted board comes to; of the order of going out the first rounds - 1, with zeros up to 8.
#[derive(Clone, Copy)]
pub struct Accepted {
    pub rounds: usize,
    pub winner: usize,
    pub order: [u8; 8],
}

// Why there is no answer, and the number of the record that broke the rule.
#[derive(Clone, Copy)]
pub struct Refused {
    pub refusal: Refusal,
    pub record: usize,
}

// As it is printed: the number, and the record.
impl fmt::Display for Refused {
    fn fmt<W: fmt::Write>(&self, f: &mut fmt::Formatter<W>) -> fmt::Result {
        let number = refusal_number(self.refusal);
        let record = self.record;
        write!(f, "refused {number} {record}")
    }
}

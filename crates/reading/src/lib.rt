// A lent board and its next unread place, together: what a board is read with. The functions over it are few and leave the work to others, on a
// plain slice and a place.
#![tactic(auto)]

ghost use Rattle.std.specs.Prelude.{◌≡◌, ◌≤◌, length, drop};
ghost use Rattle.header.specs.Heads.{HeaderReads};

use header::Head;
use rules::{Model, Refusal};

#[derive(Clone, Copy)]
pub struct Reading<'a> {
    pub board: &'a [u8],
    pub next: usize,
}

// A reading of a board from a place on.
pub fn start<'a>(board: &'a [u8], next: usize) -> Reading<'a>
    ensures { (result.board ≡ board.entry) × (result.next ≡ next) }
{
    Reading { board, next }
}

// The same board, to be read from another place on.
pub fn moved<'a>(r: Reading<'a>, next: usize) -> Reading<'a>
    ensures { (result.board ≡ r.entry.board) × (result.next ≡ next) }
{
    Reading {
        board: r.board,
        next,
    }
}

// What the bytes from a place on hold as the header of a model.
fn header_at(board: &[u8], at: usize, model: Model) -> Result<Head, Refusal>
    requires { at ≤ length board.now }
    ensures { HeaderReads model (drop at board.now) result }
{
    header::read_header(&board[at..], model)
}

// The header at the next place.
pub fn header_of<'a>(r: Reading<'a>, model: Model) -> Result<Head, Refusal>
    requires { r.next ≤ length r.board.now }
    ensures { HeaderReads model (drop r.entry.next r.entry.board.now) result }
{
    header_at(r.board, r.next, model)
}

// The frame of a record: its length, mark, and number or round.
#![tactic(auto)]

ghost use Rattle.std.specs.Prelude.{◌≡◌, ◌+◌, ◌≤◌, ◌<◌, length, get_or};
ghost use Rattle.rules.specs.Bytes.{number2};
ghost use Rattle.rules.specs.Records.{SH, RT, has_mark, kind_at, shift_length, sheet_length};
ghost use Rattle.frames.specs.Framed.{Begun, Framed, BallotFramed};

use rules::Refusal;

pub fn has_mark(board: &[u8], at: usize, mark: [u8; 2]) -> bool
    requires { at + 2 ≤ length board.now }
    ensures { result ≡ has_mark board.now at mark }
{
    board[at] == mark[0] && board[at + 1] == mark[1]
}

// The number of 2 bytes at a place.
pub fn number(board: &[u8], at: usize) -> usize
    requires { at + 2 ≤ length board.now }
    ensures { result ≡ number2 board.now at }
{
    fields::number2(board, at) as usize
}

// The number of 1 byte at a place.
pub fn byte(board: &[u8], at: usize) -> usize
    requires { at < length board.now }
    ensures { result ≡ get_or board.now at 0 }
{
    usize::from(board[at])
}

// Any record: its length and mark.
fn begins(board: &[u8], at: usize, size: usize, mark: [u8; 2]) -> Result<(), Refusal>
    requires { (at ≤ length board.now) × (4 ≤ size) }
    ensures { Begun board.now at size mark result }
{
    if board.len() - at < size {
        return Err(Refusal::Length);
    }
    if !has_mark(board, at, mark) {
        return Err(Refusal::Mark);
    }
    Ok(())
}

// A BA or SH record: its length, mark and number.
fn numbered(board: &[u8], at: usize, size: usize, mark: [u8; 2], due: usize) -> Result<(), Refusal>
    requires { (at ≤ length board.now) × (4 ≤ size) }
    ensures { Framed board.now at size mark (number2 board.now (at + 2)) due result }
{
    begins(board, at, size, mark)?;
    if number(board, at + 2) != due {
        return Err(Refusal::Number);
    }
    Ok(())
}

// The kind of the BA record at a place; 0 where the board ends before it.
pub fn kind(board: &[u8], at: usize) -> usize
    requires { at ≤ length board.now }
    ensures { result ≡ kind_at board.now at }
{
    if board.len() - at < 5 {
        return 0;
    }
    byte(board, at + 4)
}

// A BA record: its length by its kind, mark, number and kind.
pub fn ballot_frame(board: &[u8], at: usize, n: usize, due: usize) -> Result<(), Refusal>
    requires { (at ≤ length board.now) × (n ≤ 8) }
    ensures { BallotFramed board.now at n due result }
{
    let kind = kind(board, at);
    numbered(board, at, layout::ballot_length(n, kind), layout::BA, due)?;
    let unknown = layout::AUDITED < kind;
    if unknown {
        return Err(Refusal::Kind);
    }
    Ok(())
}

pub fn shift_frame(
    board: &[u8],
    at: usize,
    n: usize,
    rows: usize,
    due: usize,
) -> Result<(), Refusal>
    requires { (at ≤ length board.now) × (n ≤ 8) × (rows ≤ 8) }
    ensures { Framed board.now at (shift_length n rows) SH (number2 board.now (at + 2)) due result }
{
    numbered(board, at, layout::shift_length(n, rows), layout::SH, due)
}

// An RT record: its length, mark and round.
pub fn sheet_frame(board: &[u8], at: usize, n: usize, round: usize) -> Result<(), Refusal>
    requires { (at ≤ length board.now) × (n ≤ 8) }
    ensures { Framed board.now at (sheet_length n) RT (get_or board.now (at + 2) 0) round result }
{
    begins(board, at, layout::sheet_length(n), layout::RT)?;
    if byte(board, at + 2) != round {
        return Err(Refusal::Number);
    }
    Ok(())
}

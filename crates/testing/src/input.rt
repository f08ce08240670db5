// Input of the test programs: numbers of 4 bytes, high byte first; a piece is its length and then its bytes.
ghost use Rattle.std.specs.Prelude.{◌≡◌, ℕ, ◌<◌, length, get_or};
ghost use Rattle.io.specs.Counts.{IsPrefixLen};
ghost use Rattle.testing.specs.Input.{piece_at, QuestionReads};

use crate::print;
use std::io::{Input, Read};

// An input is shorter than this.
pub const LIMIT: usize = 2359296;

// Room for an input: zeros.
pub fn room() -> [u8; LIMIT]
    ensures { (2359296 ≡ length result) × ((i : ℕ) → i < 2359296 → get_or result i 0 ≡ 0) }
{
    [0; LIMIT]
}

// Reads to the front of a room until it is full, the input ends or a read fails: how many bytes.
fn read_full(reader: &mut impl Read, room: &mut [u8]) -> usize
    ensures { IsPrefixLen result room.new }
{
    let mut done = 0;
    while done < room.len() {
        let Ok(n) = reader.read(&mut room[done..]) else {
            break;
        };
        if n == 0 {
            break;
        }
        done += n;
    }
    done
}

// Standard input, read to the front of a room: its length. An input that fills the room is bad, and counts as empty.
pub fn read(rt: &(impl Input + Print), room: &mut [u8]) -> usize
    ensures { IsPrefixLen result room.new }
{
    let n = read_full(&mut rt.reader(), room);
    if n == room.len() {
        print::bad_input(rt);
        return 0;
    }
    n
}

// Where the bytes of the piece at a place start and end; none where the length is cut off, or the bytes are.
pub fn piece_at(s: &[u8], at: usize) -> Option<(usize, usize)>
    ensures { result ≡ piece_at s.now at }
{
    if s.len() < 4 || s.len() - 4 < at {
        return None;
    }
    let start = at + 4;
    let length = fields::number4(s, at) as usize;
    if s.len() - start < length {
        return None;
    }
    Some((start, start + length))
}

// Where the pieces of a case end that asks something of a board: its name, the board, and what is asked. A number of 4 bytes follows.
#[derive(Clone, Copy)]
pub struct Ends {
    pub name: usize,
    pub board: usize,
    pub asked: usize,
}

// The case at a place; none where a piece is cut off, or the number is.
#[tactic(auto, unfolding(crate::specs::Input::QuestionReads))]
pub fn question_at(s: &[u8], at: usize) -> Option<Ends>
    ensures { QuestionReads s.now at result }
{
    let (_, name) = piece_at(s, at)?;
    let (_, board) = piece_at(s, name)?;
    let (_, asked) = piece_at(s, board)?;
    if s.len() - asked < 4 {
        return None;
    }
    Some(Ends { name, board, asked })
}

// Answers each case of an input in turn, by its name, its board, what is asked and the number behind; up to the first that is damaged or has no answer.
#[tactic(auto, unfolding(crate::specs::Input::QuestionReads))]
pub fn answer_each<F: Fn(&[u8], &[u8], &[u8], usize) -> bool>(rt: &impl Print, s: &[u8], answer: F)
    requires { F.IsAlwaysCallable answer }
{
    let mut at = 0;
    while at < s.len() {
        let Some(Ends { name, board, asked }) = question_at(s, at) else {
            print::bad_input(rt);
            return;
        };
        let number = fields::number4(s, asked) as usize;
        if !answer(
            &s[at + 4..name],
            &s[name + 4..board],
            &s[board + 4..asked],
            number,
        ) {
            print::bad_input(rt);
            return;
        }
        at = asked + 4;
    }
}

// Reads a board from standard input, and prints the checker's verdict on it.
//
// What is proved of the functions here is that they are safe and end; what they hand to the operating system is tested and not proved.
#![tactic(auto)]

use rules::Accepted;
use std::env::FillError;
use std::io;
use std::rt::Env;

mod input;

// Each function that prints fails where the system does not take all of its text; after a part that it did not take, nothing more is written.
fn print_accepted(rt: &impl Print, accepted: Accepted) -> io::Result<()> {
    let rounds = accepted.rounds;
    let winner = accepted.winner;
    println!(rt; "accepted")?;
    println!(rt; "rounds {rounds}")?;
    for out in accepted.order.iter().take(rounds.saturating_sub(1)) {
        println!(rt; "out {out}")?;
    }
    println!(rt; "winner {winner}")
}

// What check answers on a board.
fn verdict(rt: &impl Print, board: &[u8]) -> io::Result<()> {
    match checker::check(board) {
        Ok(accepted) => print_accepted(rt, accepted),
        Err(refused) => println!(rt; "{refused}"),
    }
}

// The system's words for an error, without the number that std writes behind them.
fn words_of(error: &str) -> &str {
    match error.split_once(" (os error ") {
        Some((words, _)) => words,
        None => error,
    }
}

// A line on standard error: what failed, and the system's words for why.
fn fail(rt: &(impl Eprint + AllocGlobal), what: &str, error: io::Error) {
    let Ok(reason) = error.to_string(rt.alloc()) else {
        let _ = eprintln!(rt; "{what}: {error}");
        return;
    };
    let words = words_of(reason.as_str());
    let _ = eprintln!(rt; "{what}: {words}");
}

// What is due of the board on standard input.
fn respond(rt: &(impl io::Input + Print + Eprint + AllocGlobal)) -> io::Result<()> {
    let mut board = [0u8; 65537];
    match input::read_whole(&mut rt.reader(), &mut board) {
        Ok(Some(length)) => verdict(rt, &board[..length]),
        Ok(None) => println!(rt; "too long"),
        Err(error) => {
            fail(rt, "boardcheck: no verdict, cannot read the board", error);
            Ok(())
        }
    }
}

// Whether there are arguments behind the program's own name.
fn has_arguments(rt: &impl Env) -> bool {
    let first = rt.arg(1, &mut [0u8; 1]);
    !matches!(first, Err(FillError::NotPresent))
}

fn main(rt: HostRuntime) {
    if has_arguments(&rt) {
        let _ = rt.eprintln(
            "boardcheck: no verdict, it takes no arguments; the board is read from standard input",
        );
        return;
    }
    if let Err(error) = respond(&rt) {
        fail(&rt, "boardcheck: cannot print the verdict", error);
    }
}

// Checks the boards of standard input, and prints a line for each: its name and the verdicts of both entries to the checker.
#![tactic(auto)]

use rules::{Accepted, Refused};
use testing::{input, print};

fn print_verdict(rt: &impl Print, verdict: Result<Accepted, Refused>) {
    match verdict {
        Ok(accepted) => {
            let _ = rt.print(" accepted ");
            print::result(rt, accepted);
        }
        Err(refused) => {
            let _ = print!(rt; " {refused}");
        }
    }
}

fn check(rt: &impl Print, name: &[u8], board: &[u8]) {
    print::text(rt, name);
    print_verdict(rt, checker::check(board));
    let _ = rt.print("; small");
    print_verdict(rt, checker::check_small(board));
    let _ = rt.println("");
}

// Each frame is a name and a board.
fn run(rt: &impl Print, input: &[u8]) {
    let mut at = 0;
    while at < input.len() {
        let Some((a, b)) = input::piece_at(input, at) else {
            print::bad_input(rt);
            return;
        };
        let Some((c, d)) = input::piece_at(input, b) else {
            print::bad_input(rt);
            return;
        };
        check(rt, &input[a..b], &input[c..d]);
        at = d;
    }
}

fn main(rt: HostRuntime) {
    let mut input = input::room();
    let n = input::read(&rt, &mut input);
    run(&rt, &input[..n]);
}

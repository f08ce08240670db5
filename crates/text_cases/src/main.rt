// Asks for the text of each board of standard input with the names beside it, and prints for each case its name, the answer, whether the rest of the output
// stayed as it was, and the text.
#![tactic(auto)]

ghost use Rattle.std.specs.Prelude.{◌≡◌, ◌≤◌, length};

use rules::Refused;
use testing::{input, output, print};

const ROOM: usize = 2048;

fn no_output() -> [u8; ROOM]
    ensures { 2048 ≡ length result }
{
    [0; ROOM]
}

// What text answered, beside an output at whose front the text stands.
fn print_answer(rt: &impl Print, answer: Result<usize, Refused>, out: &[u8]) {
    match answer {
        Ok(length) => {
            let _ = print!(rt; " text {length}, rest ");
            print::kept(rt, output::kept(out, length));
            if let Some(written) = out.get(..length) {
                print::text(rt, written);
            }
        }
        Err(refused) => {
            let _ = print!(rt; " {refused}, output ");
            print::kept(rt, output::kept(out, 0));
        }
    }
}

// Writes the text into the first bytes of out.
fn tell(rt: &impl Print, board: &[u8], names: &[u8], out: &mut [u8], room: usize)
    requires { room ≤ length out.old }
{
    let told = notice::text(board, names, &mut out[0..room]);
    print_answer(rt, told, out);
}

// The same in an output of so many bytes, the case's name ahead of the answer; false where they are too many for this program.
fn answer(rt: &impl Print, name: &[u8], board: &[u8], names: &[u8], room: usize) -> bool {
    if ROOM < room {
        return false;
    }
    let mut out = no_output();
    output::fill(&mut out);
    print::text(rt, name);
    tell(rt, board, names, &mut out, room);
    true
}

fn main(rt: HostRuntime) {
    let mut input = input::room();
    let n = input::read(&rt, &mut input);
    input::answer_each(&rt, &input[..n], |name, board, names, room| {
        answer(&rt, name, board, names, room)
    });
}

// Looks up the digests of standard input on the board beside them, and prints a line for each case: its name, the answer, and whether the rest of the list stayed as it was.
#![tactic(auto)]

mod list;

ghost use Rattle.std.specs.Prelude.{◌≤◌, length};

use rules::Refused;
use testing::{input, print};

// What find answered, beside a list at whose front the numbers stand.
fn print_answer(rt: &impl Print, answer: Result<(), Refused>, list: &[u16], count: usize) {
    match answer {
        Ok(()) => {
            let _ = rt.print(" found");
            for number in list.iter().take(count) {
                let _ = print!(rt; " {number}");
            }
            let _ = rt.print(", rest ");
            print::kept(rt, list::kept(list, count));
        }
        Err(refused) => {
            let _ = print!(rt; " {refused}, list ");
            print::kept(rt, list::kept(list, 0));
        }
    }
}

// Looks up digests in the first places of a list.
fn look_up(rt: &impl Print, board: &[u8], digests: &[u8], list: &mut [u16], room: usize)
    requires { room ≤ length list.old }
{
    let found = receipts::find(board, digests, &mut list[0..room]);
    print_answer(rt, found, list, digests.len() / 32);
}

// The same in a list of so many places, the case's name ahead of the answer; false where they are too many for this program.
fn answer(rt: &impl Print, name: &[u8], board: &[u8], digests: &[u8], room: usize) -> bool {
    if list::ROOM < room {
        return false;
    }
    let mut list = list::filled();
    print::text(rt, name);
    look_up(rt, board, digests, &mut list, room);
    true
}

fn main(rt: HostRuntime) {
    let mut input = input::room();
    let n = input::read(&rt, &mut input);
    input::answer_each(&rt, &input[..n], |name, board, digests, room| {
        answer(&rt, name, board, digests, room)
    });
}

// Writes the jobs of standard input, and prints a line for each: its name, the reply, and whether the rest of the output stayed as it was.
#![tactic(auto)]

mod buffers;
mod frame;

ghost use Rattle.std.specs.Prelude.{◌≡◌, ◌≤◌, length, take};
ghost use Rattle.sha256.specs.Message.{sha256};
ghost use Rattle.job_cases.specs.Frames.{Within};

use frame::{Ends, Numbers};
use jobs::{Unwritten, Written};
use rules::Accepted;
use testing::{input, output, print};
use validity::Job;

// The digest of the first bytes of an output.
fn digest_of(out: &[u8], size: usize) -> [u8; 32]
    ensures { size ≤ length out.now → result ≡ sha256 (take size out.now) }
{
    match out.get(..size) {
        Some(written) => sha256::digest(written),
        None => [0u8; 32],
    }
}

// What write replied, beside the output at whose front the board stands.
fn print_reply(rt: &impl Print, reply: Result<Written, Unwritten>, out: &[u8]) {
    match reply {
        Ok(written) => {
            let length = written.length;
            let order = written.order;
            let accepted = Accepted {
                rounds: written.rounds,
                winner: written.winner,
                order,
            };
            let _ = print!(rt; " written {length} ");
            print::digest(rt, digest_of(out, length));
            let _ = rt.print(" ");
            print::result(rt, accepted);
            let _ = rt.print(", rest ");
            print::kept(rt, output::kept(out, length));
        }
        Err(unwritten) => {
            let _ = print!(rt; " {unwritten}, output ");
            print::kept(rt, output::kept(out, 0));
        }
    }
}

// Writes a job into the first bytes of out.
fn write(
    rt: &impl Print,
    job: Job,
    label: &[u8],
    rankings: &[u8],
    kinds: &[u8],
    draws: &[u32],
    out: &mut [u8],
    size: usize,
)
    requires { size ≤ length out.old }
{
    let reply = writer::write(job, label, rankings, kinds, draws, &mut out[0..size]);
    print_reply(rt, reply, out);
}

// Writes a job, its draws given as bytes, and prints its line; false where draws or output are too long for this program.
fn answer(
    rt: &impl Print,
    name: &[u8],
    numbers: Numbers,
    label: &[u8],
    rankings: &[u8],
    kinds: &[u8],
    bytes: &[u8],
) -> bool {
    let count = bytes.len() / 4;
    let length = numbers.length;
    if buffers::DRAWS < count || buffers::ROOM < length {
        return false;
    }
    let draws = buffers::draws_of(bytes);
    let mut out = buffers::no_output();
    output::fill(&mut out);
    print::text(rt, name);
    write(
        rt,
        numbers.job,
        label,
        rankings,
        kinds,
        &draws[0..count],
        &mut out,
        length,
    );
    true
}

// The same for the job at a place.
fn answer_at(rt: &impl Print, input: &[u8], at: usize, ends: Ends) -> bool
    requires { Within input.now at ends }
{
    let Ends {
        name,
        label,
        rankings,
        kinds,
        draws,
    } = ends;
    answer(
        rt,
        &input[at + 4..name],
        frame::numbers_at(input, name),
        &input[name + 32..label],
        &input[label + 4..rankings],
        &input[rankings + 4..kinds],
        &input[kinds + 4..draws],
    )
}

#[tactic(auto, unfolding(crate::specs::Frames::FrameReads))]
fn run(rt: &impl Print, input: &[u8]) {
    let mut at = 0;
    while at < input.len() {
        let Some(ends) = frame::read(input, at) else {
            print::bad_input(rt);
            return;
        };
        if !answer_at(rt, input, at, ends) {
            print::bad_input(rt);
            return;
        }
        at = ends.draws;
    }
}

fn main(rt: HostRuntime) {
    let mut input = input::room();
    let n = input::read(&rt, &mut input);
    run(&rt, &input[..n]);
}

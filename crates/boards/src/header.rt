// The header of a board.
ghost use Rattle.std.specs.Prelude.{◌≡◌, [], ◌∷◌, ◌++◌, ◌≤◌, ◌<◌, length};
ghost use Rattle.sha256.specs.Message.{sha256};
ghost use Rattle.rules.specs.Bytes.{bytes4};
ghost use Rattle.rules.specs.Records.{header_length};
ghost use Rattle.jobs.specs.Board.{header_bytes};
ghost use Rattle.output.specs.Written.{written};
ghost use Rattle.boards.specs.Parts.{board_job, head_group};

use crate::Entries;
use group::Group;

fn put_group(out: &mut [u8], g: Group, counter: u8)
    requires { 17 ≤ length out.old }
    ensures { out.new ≡ written (bytes4 g.p ++ bytes4 g.q ++ bytes4 g.g0.0 ++ (counter ∷ []) ++ bytes4 g.g1.0) out.old }
{
    output::put_number4(out, g.p);
    output::put_number4(&mut out[4..], g.q);
    output::put_number4(&mut out[8..], g.g0.0);
    output::put_byte(&mut out[12..], counter);
    output::put_number4(&mut out[13..], g.g1.0);
}

pub fn write_header(out: &mut [u8], entries: Entries)
    requires { (entries.head.n < 256) × (entries.head.k < 65536) × (length entries.label.now ≡ 32) × (header_length ≤ length out.old) }
    ensures { out.new ≡ written (header_bytes sha256 (board_job entries.entry) (head_group entries.entry.head)) out.old }
{
    let head = entries.head;
    output::put_two(out, layout::HF);
    output::put_byte(&mut out[2..], head.n as u8);
    output::put_number2(&mut out[3..], head.k as u32);
    put_group(&mut out[5..], head.setup.group, head.counter);
    output::put_bytes(&mut out[22..], entries.label);
}

// Standard input, read to its end.
ghost use Rattle.boardcheck.specs.Inputs.{Fits};

use std::io;
use std::io::{ErrorKind, Read};

// How often a read may be interrupted before it counts as failed.
const TRIES: u64 = 4611686018427387904;

// All of the input, where it is shorter than the room: so many bytes, and then its end, which a read of 0 bytes alone is; none where it is longer. After a
// read that failed nothing is known of the input.
pub fn read_whole(reader: &mut impl Read, room: &mut [u8]) -> io::Result<Option<usize>>
    ensures { Fits room.new result }
{
    let mut at = 0;
    let mut tries = TRIES;
    while at < room.len() {
        match reader.read(&mut room[at..]) {
            Ok(0) => return Ok(Some(at)),
            Ok(count) => at += count,
            Err(error) if error.kind() == ErrorKind::Interrupted && 0 < tries => tries -= 1,
            Err(error) => return Err(error),
        }
    }
    Ok(None)
}

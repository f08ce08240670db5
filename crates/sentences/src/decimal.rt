// Numbers in decimal, without leading zeros.
ghost use Rattle.std.specs.Prelude.{◌≤◌, length};
ghost use Rattle.rules.specs.Sentences.{decimal};

use crate::sink::Sink;

// The last digit comes behind the others.
pub fn put<S: Sink>(sink: &mut S, x: u32)
    requires { S.fits sink.old (decimal x) }
    ensures taken { S.took sink.old (decimal x) sink.new }
    ensures few { length (decimal x) ≤ 10 }
{
    let more = 10 <= x;
    if more {
        put(sink, x / 10);
    }
    sink.put(&[b'0' + (x % 10) as u8]);
}

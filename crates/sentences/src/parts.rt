// The parts of a line.
#![tactic(auto, unfolding(rules::specs::Sentences::bytes))]

ghost use Rattle.std.specs.Prelude.{◌≡◌, ◌+◌, ◌≤◌, ◌<◌, cond, length};
ghost use Rattle.rules.specs.Sentences.{bytes, opening, count_text, ending};

use crate::decimal;
use crate::sink::Sink;

// "Round 2: ", of round m from 0.
pub fn put_opening<S: Sink>(sink: &mut S, m: usize)
    requires { (m < 8) × S.fits sink.old (opening m) }
    ensures taken { S.took sink.old (opening m) sink.new }
    ensures few { length (opening m) ≤ 18 }
{
    sink.put(b"Round ");
    decimal::put(sink, m as u32 + 1);
    sink.put(b": ");
}

// "Skyr counts 5"
pub fn put_count<S: Sink>(sink: &mut S, name: &[u8], count: u32)
    requires { S.fits sink.old (count_text name.now count) }
    ensures taken { S.took sink.old (count_text name.now count) sink.new }
    ensures few { length (count_text name.now count) ≤ length name.now + 18 }
{
    sink.put(name);
    sink.put(b" counts ");
    decimal::put(sink, count);
}

// " wins." in the last round, " leaves." in the others.
fn verb(last: bool) -> &'static [u8]
    ensures { result.now ≡ cond last (bytes " wins.") (bytes " leaves.") }
{
    if last { b" wins." } else { b" leaves." }
}

// "; Quark leaves." or "; Skyr wins.", and a line feed.
pub fn put_ending<S: Sink>(sink: &mut S, name: &[u8], last: bool)
    requires { S.fits sink.old (ending last name.now) }
    ensures { S.took sink.old (ending last name.now) sink.new }
{
    sink.put(b"; ");
    sink.put(name);
    sink.put(verb(last));
    sink.put(b"\n");
}

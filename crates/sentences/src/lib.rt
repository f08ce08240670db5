// The count in sentences: a line a round, measured and written.
#![tactic(auto)]

ghost use Rattle.sentences.specs.Finished.{Finished};

use count::Ended;
use names::Names;
use sink::{Length, Rest};

mod counts;
mod decimal;
mod lines;
mod parts;
mod sink;

// A count that has ended, with the names of its processes.
#[derive(Clone, Copy)]
pub struct Named<'a> {
    pub names: Names<'a>,
    pub ended: Ended,
    pub ghost finished: { Finished names.count ended },
}

impl Named<'_> {
    ghost use Rattle.std.specs.Prelude.{◌≡◌, ◌≤◌, length};
    ghost use Rattle.output.specs.Written.{written};
    ghost use Rattle.sentences.specs.Lines.{text_named};

    // The length of the text.
    pub fn text_length(&self) -> usize
        ensures { result ≡ length (text_named self.now) }
    {
        let mut sink = Length(0);
        lines::put_lines(&mut sink, self);
        sink.0
    }

    // The text, to the front of an output that it fits into, line after line.
    pub fn put_text(&self, out: &mut [u8])
        requires { length (text_named self.now) ≤ length out.old }
        ensures { out.new ≡ written (text_named self.now) out.old }
    {
        let mut sink = Rest { out, at: 0 };
        lines::put_lines(&mut sink, self);
    }
}

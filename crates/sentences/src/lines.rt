// The lines of the rounds.
ghost use Rattle.std.specs.Prelude.{◌≡◌, ℕ, ◌≤◌, length};
ghost use Rattle.rules.specs.Sentences.{who_in};
ghost use Rattle.count.specs.State.{result_of, Kept};
ghost use Rattle.sentences.specs.Lines.{line_named, text_named};

use crate::sink::Sink;
use crate::{Named, counts, parts};
use count::Ended;

// Who leaves in round m, from 0, or wins in the last; from 1.
fn who_in(ended: &Ended, m: usize) -> usize
    requires { Kept ended.now.count × (m ≤ ended.now.count.gone.outs) × (ended.now.count.gone.outs ≤ 7) }
    ensures { (n : ℕ) → result ≡ who_in (result_of n ended.now) m }
{
    let gone = &ended.count.gone;
    if m == gone.outs {
        ended.winner
    } else {
        usize::from(gone.order[m])
    }
}

// The line of round m: the counts of those not gone out before it, and who leaves or wins.
fn put_line<S: Sink>(sink: &mut S, x: &Named<'_>, m: usize)
    requires { (m ≤ x.now.ended.count.gone.outs) × S.fits sink.old (line_named x.now m) }
    ensures taken { S.took sink.old (line_named x.now m) sink.new }
    ensures few { length (line_named x.now m) ≤ 400 }
{
    let count = &x.ended.count;
    let gone = count::first_of(count.gone.order, m);
    let last = m == count.gone.outs;
    let who = x.names.name(who_in(&x.ended, m) - 1);
    parts::put_opening(sink, m);
    counts::put_counts(sink, &x.names, gone, count.sheets[m]);
    parts::put_ending(sink, who, last);
}

// A line a round.
pub fn put_lines<S: Sink>(sink: &mut S, x: &Named<'_>)
    requires { S.fits sink.old (text_named x.now) }
    ensures taken { S.took sink.old (text_named x.now) sink.new }
    ensures few { length (text_named x.now) ≤ 3200 }
{
    for m in 0..x.ended.count.gone.outs + 1 {
        put_line(sink, x, m);
    }
}

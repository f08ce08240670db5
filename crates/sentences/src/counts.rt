// Those still in with their counts, in number order.
ghost use Rattle.std.specs.Prelude.{◌*◌, ◌≤◌, length};
ghost use Rattle.rules.specs.Sentences.{count_texts};
ghost use Rattle.rules.specs.Notice.{name_of};
ghost use Rattle.count.specs.State.{counts_on, list_of, Listed};

use crate::parts;
use crate::sink::Sink;
use count::{Gone, Sheet};
use names::Names;

// Of the processes all but those gone out, with the counts of a sheet, and a comma ahead of each but the first.
pub fn put_counts<S: Sink>(sink: &mut S, names: &Names<'_>, gone: Gone, sheet: Sheet)
    requires { Listed gone × S.fits sink.old (count_texts (name_of names.now.lent.now) names.now.count (list_of gone) (counts_on names.now.count sheet)) }
    ensures taken { S.took sink.old (count_texts (name_of names.now.lent.now) names.now.count (list_of gone) (counts_on names.now.count sheet)) sink.new }
    ensures few { length (count_texts (name_of names.now.lent.now) names.now.count (list_of gone) (counts_on names.now.count sheet)) ≤ 40 * names.now.count }
{
    let mut ahead: &[u8] = b"";
    for i in 0..names.count {
        if gone.is_out(i + 1) {
            continue;
        }
        sink.put(ahead);
        parts::put_count(sink, names.name(i), sheet.counts[i]);
        ahead = b", ";
    }
}

// The rounds of a board, each into the unwritten rest of the output.
ghost use Rattle.std.specs.Prelude.{◌≡◌, ◌++◌, ◌+◌, ◌≤◌, ◌<◌, length, get_or};
ghost use Rattle.numbers.specs.Below.{sum_below, concat_below};
ghost use Rattle.sha256.specs.Message.{sha256};
ghost use Rattle.rules.specs.Records.{header_length, record_length, sheet_length};
ghost use Rattle.jobs.specs.Board.{header_bytes};
ghost use Rattle.output.specs.Written.{written};
ghost use Rattle.boards.specs.Parts.{board_job, head_group, bytes_before, RoundReady, Planned, Writable, Sheeted, plan_bytes, round_bytes};

use crate::records::RoundPlan;
use crate::{Entries, header, records, sheet};
use count::Count;
use plain::rounds;

// Round m of a count that has ended; the draws of the round before it and its own start at two places.
fn plan_of(count: Count, m: usize, old: usize, new: usize) -> RoundPlan
    requires { m < 8 }
    ensures { Planned count m old new result }
{
    let order = count.gone.order;
    let sheet = count.sheets[m];
    let out = order[m];
    let gone = count::first_of(order, m);
    let (before, a) = if m == 0 {
        (gone, 0)
    } else {
        (count::first_of(order, m - 1), order[m - 1])
    };
    RoundPlan {
        m,
        before,
        gone,
        a,
        old,
        new,
        out,
        sheet,
    }
}

// Its records, and its sheet as it was counted.
fn write_round(out: &mut [u8], entries: Entries, plan: RoundPlan)
    requires { RoundReady (board_job entries) plan × (sum_below entries.head.k (λ i. record_length entries.head.n (get_or entries.kinds.now i 0) plan.m) + sheet_length entries.head.n ≤ length out.old) }
    ensures { out.new ≡ written (plan_bytes sha256 (board_job entries.entry) (head_group entries.entry.head) plan) out.old }
{
    let at = records::write_records(out, entries, plan);
    sheet::write_sheet(&mut out[at..], entries, plan);
}

fn write_rounds(out: &mut [u8], entries: Entries, count: Count)
    requires { Writable (board_job entries) count.gone.order (count.gone.outs + 1) × Sheeted (board_job entries) count × (bytes_before (board_job entries) (count.gone.outs + 1) ≤ length out.old + header_length) }
    ensures { out.new ≡ written (concat_below (count.gone.outs + 1) (round_bytes sha256 (board_job entries.entry) (head_group entries.entry.head) count.gone.order)) out.old }
{
    let n = entries.head.n;
    let end = count.gone.outs + 1;
    let mut at = 0;
    let mut old = 0;
    let mut new = 0;
    for m in 0..end {
        let plan = plan_of(count, m, old, new);
        write_round(&mut out[at..], entries, plan);
        let round = rounds::measure_round(entries.kinds, n, entries.head.k, m);
        at += round.length + layout::sheet_length(n);
        old = new;
        new += round.needed;
    }
}

// The whole board of a count that has ended.
pub fn write_board(out: &mut [u8], entries: Entries, count: Count)
    requires ready { Writable (board_job entries) count.gone.order (count.gone.outs + 1) × Sheeted (board_job entries) count }
    requires label_len { (length entries.label.now ≡ 32) × (header_length ≤ length out.old) × (bytes_before (board_job entries) (count.gone.outs + 1) ≤ length out.old) }
    ensures { out.new ≡ written (header_bytes sha256 (board_job entries.entry) (head_group entries.entry.head) ++ concat_below (count.gone.outs + 1) (round_bytes sha256 (board_job entries.entry) (head_group entries.entry.head) count.gone.order)) out.old }
{
    header::write_header(out, entries);
    write_rounds(&mut out[layout::HEADER_LENGTH..], entries, count);
}

// The box's library: check, for the box and for the screen, write, find and text for programs in C, with numbers, slices and arrays of fixed length alone. include/gooseoften.h declares them.
#![tactic(auto)]

ghost use Rattle.std.specs.Prelude.{◌≡◌, length};
ghost use Rattle.sha256.specs.Message.{sha256};
ghost use Rattle.rules.specs.Check.{check_board, check_small};
ghost use Rattle.rules.specs.Receipts.{find_outcome, list_after};
ghost use Rattle.rules.specs.Notice.{text_outcome, output_after};
ghost use Rattle.jobs.specs.Write.{write_outcome, write_output};
ghost use Rattle.gooseoften.specs.Answers.{job, check_code, check_answer, write_code, write_answer, find_code, text_code, text_answer};

use group::Element;
use validity::Job;

mod answers;

// The verdict on a board.
#[unsafe(no_mangle)]
pub extern "C" fn gooseoften_check(board: &[u8], answer: &mut [usize; 10]) -> usize
    ensures value { result ≡ check_code (check_board sha256 board.now) }
    ensures answer_after { answer.new ≡ check_answer (check_board sha256 board.now) answer.old }
{
    answers::put_verdict(answer, checker::check(board))
}

// The verdict on a board for the screen in the council room.
#[unsafe(no_mangle)]
pub extern "C" fn gooseoften_check_small(board: &[u8], answer: &mut [usize; 10]) -> usize
    ensures value { result ≡ check_code (check_small sha256 board.now) }
    ensures answer_after { answer.new ≡ check_answer (check_small sha256 board.now) answer.old }
{
    answers::put_verdict(answer, checker::check_small(board))
}

// The board of a job, written into out.
#[unsafe(no_mangle)]
pub extern "C" fn gooseoften_write(
    n: usize,
    k: usize,
    p: u32,
    q: u32,
    g0: u32,
    counter: u8,
    label: &[u8],
    rankings: &[u8],
    kinds: &[u8],
    draws: &[u32],
    out: &mut [u8],
    answer: &mut [usize; 11],
) -> usize
    ensures value { result ≡ write_code (write_outcome sha256 (job n k p q g0 counter label.now rankings.now kinds.now draws.now) (length out.old)) }
    ensures answer_after { answer.new ≡ write_answer (write_outcome sha256 (job n k p q g0 counter label.now rankings.now kinds.now draws.now) (length out.old)) answer.old }
    ensures out_after { out.new ≡ write_output sha256 (job n k p q g0 counter label.now rankings.now kinds.now draws.now) out.old }
{
    let job = Job {
        n,
        k,
        p,
        q,
        g0: Element(g0),
        counter,
    };
    answers::put_reply(
        answer,
        writer::write(job, label, rankings, kinds, draws, out),
    )
}

// The ballot numbers of digests, written to the front of found.
#[unsafe(no_mangle)]
pub extern "C" fn gooseoften_find(board: &[u8], digests: &[u8], found: &mut [u16]) -> usize
    ensures value { result ≡ find_code (find_outcome sha256 board.now digests.now (length found.old)) }
    ensures found_after { found.new ≡ list_after (find_outcome sha256 board.now digests.now (length found.old)) found.old }
{
    answers::found_code(receipts::find(board, digests, found))
}

// The count of a board in sentences, with the names of its processes, written into out.
#[unsafe(no_mangle)]
pub extern "C" fn gooseoften_text(
    board: &[u8],
    names: &[u8],
    out: &mut [u8],
    answer: &mut [usize; 1],
) -> usize
    ensures value { result ≡ text_code (text_outcome sha256 board.now names.now (length out.old)) }
    ensures answer_after { answer.new ≡ text_answer (text_outcome sha256 board.now names.now (length out.old)) answer.old }
    ensures out_after { out.new ≡ output_after (text_outcome sha256 board.now names.now (length out.old)) out.old }
{
    answers::put_told(answer, notice::text(board, names, out))
}

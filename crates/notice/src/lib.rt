// The text for a board: its count in sentences, with the names of processes.
#![tactic(auto)]

ghost use Rattle.std.specs.Prelude.{◌≡◌, ◌≤◌, length};
ghost use Rattle.sha256.specs.Message.{sha256};
ghost use Rattle.rules.specs.Notice.{tell, text_outcome, output_after};
ghost use Rattle.rules.specs.Answers.{telling_of};
ghost use Rattle.count.specs.State.{result_of};
ghost use Rattle.sentences.specs.Finished.{Finished};

use count::Ended;
use rules::{Refusal, Refused};
use sentences::Named;

// The length of the text of a count that has ended, which is at the front of the output; or why there is none. It is measured first.
fn tell(n: usize, ended: Ended, lent: &[u8], out: &mut [u8]) -> Result<usize, Refused>
    requires { (n ≤ 8) × Finished n ended }
    ensures out_after { telling_of result out.new ≡ tell n lent.now (result_of n ended) (length out.old) }
    ensures out_after_2 { out.new ≡ output_after (tell n lent.now (result_of n ended) (length out.old)) out.old }
{
    let names = names::read_names(lent, n).ok_or(Refused {
        refusal: Refusal::Names,
        record: 0,
    })?;
    let named = Named { names, ended };
    let length = named.text_length();
    if out.len() < length {
        return Err(Refused {
            refusal: Refusal::Output,
            record: 0,
        });
    }
    named.put_text(out);
    Ok(length)
}

// The length of the text for a board, which is at the front of the output; or why the output is as it was.
pub fn text(board: &[u8], names: &[u8], out: &mut [u8]) -> Result<usize, Refused>
    ensures out_after { telling_of result out.new ≡ text_outcome sha256 board.now names.now (length out.old) }
    ensures out_after_2 { out.new ≡ output_after (text_outcome sha256 board.now names.now (length out.old)) out.old }
{
    let counted = checker::count_board(board);
    let accepted = counted.verdict?;
    let ended = Ended {
        count: counted.count,
        winner: accepted.winner,
    };
    tell(counted.n, ended, names, out)
}

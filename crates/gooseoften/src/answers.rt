// The numbers of an answer, put into the slice that a program in C lends for it.
ghost use Rattle.std.specs.Prelude.{◌≡◌, ℕ, ◌≤◌, List, [], ◌∷◌, length};
ghost use Rattle.rules.specs.Answers.{refusal_number, verdict_of, finding_of, telling_of};
ghost use Rattle.jobs.specs.Replies.{outcome_of};
ghost use Rattle.output.specs.Written.{written};
ghost use Rattle.gooseoften.specs.Answers.{refusal_code, result_numbers, check_code, write_code, find_code, text_code};
ghost use Rattle.gooseoften.specs.Puts.{record_named, ranking_named, check_put, reply_put, told_put};

use jobs::{Unwritten, Written};
use rules::{Accepted, Refusal, Refused};

fn put_one(answer: &mut [usize], x: usize)
    requires { 1 ≤ length answer.old }
    ensures { answer.new ≡ written (x ∷ []) answer.old }
{
    answer[0] = x;
}

fn put_pair(answer: &mut [usize], first: usize, second: usize)
    requires { 2 ≤ length answer.old }
    ensures { answer.new ≡ written (first ∷ second ∷ []) answer.old }
{
    answer[0] = first;
    answer[1] = second;
}

fn put_order(answer: &mut [usize], order: [u8; 8])
    requires { 8 ≤ length answer.old }
    ensures { answer.new ≡ written order answer.old }
{
    for i in 0..8usize {
        answer[i] = order[i] as usize;
    }
}

fn put_result(answer: &mut [usize], rounds: usize, winner: usize, order: [u8; 8])
    requires { 10 ≤ length answer.old }
    ensures { answer.new ≡ written (result_numbers rounds winner order) answer.old }
{
    put_pair(answer, rounds, winner);
    put_order(&mut answer[2..], order);
}

// The code of a refusal.
fn code(refusal: Refusal, place: usize) -> usize
    requires { place ≤ 7008 }
    ensures { result ≡ refusal_code (refusal_number refusal) place }
{
    rules::refusal_number(refusal) + 256 * place
}

// What check answered: its code is returned, and the result of an accepted board is put into the answer.
pub fn put_verdict(answer: &mut [usize], verdict: Result<Accepted, Refused>) -> usize
    requires in_bounds { 10 ≤ length answer.old }
    requires verdict_bound { record_named verdict ≤ 7008 }
    ensures value { result ≡ check_code (verdict_of verdict) }
    ensures answer_after { answer.new ≡ check_put verdict answer.old }
{
    match verdict {
        Ok(accepted) => {
            let order = accepted.order;
            put_result(answer, accepted.rounds, accepted.winner, order);
            0
        }
        Err(Refused { refusal, record }) => code(refusal, record),
    }
}

// What write replied.
pub fn put_reply(answer: &mut [usize], reply: Result<Written, Unwritten>) -> usize
    requires in_bounds { 11 ≤ length answer.old }
    requires reply_bound { ranking_named reply ≤ 7008 }
    ensures value { result ≡ write_code (outcome_of reply) }
    ensures answer_after { answer.new ≡ reply_put reply answer.old }
{
    match reply {
        Ok(written) => {
            let order = written.order;
            put_result(answer, written.rounds, written.winner, order);
            put_one(&mut answer[10..], written.length);
            0
        }
        Err(unwritten) => code(unwritten.refusal, unwritten.ranking),
    }
}

// What find answered: its code, whatever the numbers in the list.
pub fn found_code(answer: Result<(), Refused>) -> usize
    requires { record_named answer ≤ 7008 }
    ensures { (numbers : List ℕ) → result ≡ find_code (finding_of answer numbers) }
{
    match answer {
        Ok(()) => 0,
        Err(refused) => code(refused.refusal, refused.record),
    }
}

// What text answered: its code, whatever the text, and the text's length is put into the answer.
pub fn put_told(answer: &mut [usize], told: Result<usize, Refused>) -> usize
    requires in_bounds { 1 ≤ length answer.old }
    requires told_bound { record_named told ≤ 7008 }
    ensures by_index { (out : List ℕ) → result ≡ text_code (telling_of told out) }
    ensures answer_after { answer.new ≡ told_put told answer.old }
{
    match told {
        Ok(length) => {
            put_one(answer, length);
            0
        }
        Err(refused) => code(refused.refusal, refused.record),
    }
}

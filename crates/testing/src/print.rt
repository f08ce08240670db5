// Answers of the checker and the writer, as parts of a line on standard output.
//
// What is proved of the functions here is that they are safe and end; what they hand to the operating system is tested and not proved. A write that fails is
// let pass.
use rules::Accepted;

// Bytes as they are, as the name of a case.
pub fn text(rt: &impl Print, bytes: &[u8]) {
    let _ = rt.write_all(bytes);
}

// The whole answer to a damaged input.
pub fn bad_input(rt: &impl Print) {
    let _ = rt.println("bad input");
}

// The result of a count on one line: the processes that went out are the first of its order.
pub fn result(rt: &impl Print, accepted: Accepted) {
    let rounds = accepted.rounds;
    let winner = accepted.winner;
    let _ = print!(rt; "rounds {rounds} ");
    for out in accepted.order.iter().take(rounds.saturating_sub(1)) {
        let _ = print!(rt; "out {out} ");
    }
    let _ = print!(rt; "winner {winner}");
}

// 64 hexadecimal digits.
pub fn digest(rt: &impl Print, bytes: [u8; 32]) {
    for byte in bytes {
        let _ = print!(rt; "{byte:02x}");
    }
}

// The end of a line: whether what was to stay is as it was.
pub fn kept(rt: &impl Print, kept: bool) {
    let _ = rt.println(if kept { "unchanged" } else { "changed" });
}

// SHA-256 of FIPS 180-4's examples, and of messages that end near a block's end, at once and in pieces.
#![tactic(auto)]

ghost use Rattle.std.specs.Prelude.{◌≡◌, ℕ, ◌+◌, ◌*◌, ◌%◌, ◌≤◌, ◌<◌, length, get_or, replicate};
ghost use Rattle.io.specs.Digits.{hex_digit_ascii};
ghost use Rattle.sha256.specs.Message.{sha256};
ghost use Rattle.vectors.specs.Hex.{hexadecimal};

use sha256::Hasher;

// The last hexadecimal digit of n.
fn digit(n: u8) -> u8
    ensures { result ≡ hex_digit_ascii (n % 16) }
{
    let d = n % 16;
    if d < 10 { 48 + d } else { 87 + d }
}

fn hexadecimal(bytes: [u8; 32]) -> [u8; 64]
    ensures { result ≡ hexadecimal bytes }
{
    let mut text = [0u8; 64];
    for i in 0..32usize {
        let b = bytes[i];
        text[i * 2] = digit(b / 16);
        text[i * 2 + 1] = digit(b);
    }
    text
}

// Byte i is i % 251.
fn counting() -> [u8; 65537]
    ensures { (length result ≡ 65537) × ((i : ℕ) → i < 65537 → get_or result i 0 ≡ i % 251) }
{
    let mut bytes = [0u8; 65537];
    for (i, byte) in bytes.iter_mut().enumerate() {
        *byte = (i % 251) as u8;
    }
    bytes
}

// The cuts of pieces of n bytes each.
fn steps(n: usize) -> [usize; 1000]
    requires { n ≤ 1000 }
    ensures { (length result ≡ 1000) × ((i : ℕ) → i < 1000 → get_or result i 0 ≡ (i + 1) * n) }
{
    let mut cuts = [0usize; 1000];
    for (i, cut) in cuts.iter_mut().enumerate() {
        *cut = (i + 1) * n;
    }
    cuts
}

// The cuts of pieces of 1, 3, 5 and so on bytes.
fn squares() -> [usize; 256]
    ensures { (length result ≡ 256) × ((i : ℕ) → i < 256 → get_or result i 0 ≡ (i + 1) * (i + 1)) }
{
    let mut cuts = [0usize; 256];
    for (i, cut) in cuts.iter_mut().enumerate() {
        *cut = (i + 1) * (i + 1);
    }
    cuts
}

// The digest of some thousands of one byte.
fn thousands(n: usize, byte: u8) -> [u8; 32]
    ensures { result ≡ sha256 (replicate (n * 1000) byte) }
{
    let piece = [byte; 1000];
    let mut h = Hasher::new();
    for _ in 0..n {
        h = h.update(&piece);
    }
    h.finish()
}

// A space, the digest and a line feed. A write that fails is let pass, here and in the functions below that print.
fn print_digest(rt: &impl Print, digest: [u8; 32]) {
    let _ = rt.print(" ");
    let _ = rt.write_all(&hexadecimal(digest));
    let _ = rt.println("");
}

fn print_named(rt: &impl Print, name: &str, digest: [u8; 32]) {
    let _ = rt.print(name);
    print_digest(rt, digest);
}

fn print_length(rt: &impl Print, message: &[u8]) {
    let length = message.len();
    let _ = print!(rt; "{length} bytes");
}

// In pieces of n bytes each.
fn print_in_pieces(rt: &impl Print, message: &[u8], n: usize)
    requires { n ≤ 1000 }
{
    let cuts = steps(n);
    print_length(rt, message);
    let _ = print!(rt; " in pieces of {n}");
    print_digest(rt, sha256::digest_in_pieces(message, &cuts));
}

fn print_cut(rt: &impl Print, message: &[u8], how: &str, cuts: &[usize]) {
    print_length(rt, message);
    let _ = rt.print(how);
    print_digest(rt, sha256::digest_in_pieces(message, cuts));
}

// The first n bytes of m at once, and in pieces of eight lengths.
fn print_first(rt: &impl Print, m: &[u8], n: usize)
    requires { n ≤ length m.now }
{
    let message = &m[0..n];
    print_length(rt, message);
    print_digest(rt, sha256::digest(message));
    for n in [0, 1, 7, 63, 64, 65, 77, 1000] {
        print_in_pieces(rt, message, n);
    }
}

// In two pieces, cut at each place.
fn print_each_cut(rt: &impl Print, message: &[u8]) {
    for i in 0..=message.len() {
        print_length(rt, message);
        let _ = print!(rt; " cut at {i}");
        print_digest(rt, sha256::digest_in_pieces(message, &[i]));
    }
}

// At once, then cut at each place.
fn print_example(rt: &impl Print, name: &str, message: &[u8]) {
    print_named(rt, name, sha256::digest(message));
    print_each_cut(rt, message);
}

// FIPS 180-4's examples.
fn print_examples(rt: &impl Print) {
    print_example(rt, "empty", b"");
    print_example(rt, "abc", b"abc");
    print_example(
        rt,
        "448 bits",
        b"abcdbcdecdefdefgefghfghighijhijkijkljklmklmnlmnomnopnopq",
    );
    print_example(
        rt,
        "896 bits",
        b"abcdefghbcdefghicdefghijdefghijkefghijklfghijklmghijklmnhijklmnoijklmnopjklmnopqklmnopqrlmnopqrsmnopqrstnopqrstu",
    );
    print_named(rt, "one million a", thousands(1000, b'a'));
}

// Pieces of several lengths, cuts that do not rise or lie past the end, and the longest messages.
fn print_cuts(rt: &impl Print, m: &[u8])
    requires { 65537 ≤ length m.now }
{
    let message = &m[0..1000];
    print_cut(
        rt,
        message,
        " in pieces of 0, 1, 63, 64, 65, 65, 64, 63, 1, 0 bytes and the rest",
        &[0, 1, 64, 128, 193, 258, 322, 385, 386, 386],
    );
    print_cut(rt, message, " cut at 300 and back at 299", &[300, 299, 400]);
    print_cut(
        rt,
        message,
        " cut at 1000 and past the end",
        &[1000, 1001, 1000],
    );
    print_cut(rt, message, " cut past the end", &[1001, 500]);
    print_cut(rt, message, " with no cut", &[]);
    let odd = squares();
    print_cut(rt, &m[0..65536], " in odd pieces", &odd);
    print_cut(rt, &m[0..65537], " in odd pieces", &odd);
}

fn main(rt: HostRuntime) {
    print_examples(&rt);
    let m = counting();
    for n in [0, 1, 55, 56, 57, 63, 64, 65, 119, 120, 1000] {
        print_first(&rt, &m, n);
    }
    print_cuts(&rt, &m);
}

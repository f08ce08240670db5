// The fields of a record: numbers of 2 and 4 bytes, high byte first; elements, exponents and counts, tested as they are read; products of words; a digest as a challenge and as an element.
#![tactic(auto)]

ghost use Rattle.std.specs.Prelude.{◌≡◌, ℕ, ◌+◌, ◌*◌, ◌%◌, ◌≤◌, ◌<◌, length};
ghost use Rattle.numbers.specs.Below.{prod_below};
ghost use Rattle.rules.specs.Bytes.{number2, number4, number8};
ghost use Rattle.rules.specs.Claims.{besides};
ghost use Rattle.fields.specs.Answers.{element_at, exponent_at, count_at};

use group::{Element, Exponent};

pub fn number2(s: &[u8], at: usize) -> u32
    requires { at + 2 ≤ length s.now }
    ensures { result ≡ number2 s.now at }
{
    u32::from(u16::from_be_bytes([s[at], s[at + 1]]))
}

pub fn number4(s: &[u8], at: usize) -> u32
    requires { at + 4 ≤ length s.now }
    ensures { result ≡ number4 s.now at }
{
    u32::from_be_bytes([s[at], s[at + 1], s[at + 2], s[at + 3]])
}

// The element at a place and the place after it, or nothing where the number is no element.
pub fn element(s: &[u8], at: usize, p: u32, q: u32) -> Option<(Element, usize)>
    requires { at + 4 ≤ length s.now }
    ensures { result ≡ element_at s.now at p q }
{
    let x = Element(number4(s, at));
    group::is_element(p, q, x).then_some((x, at + 4))
}

// The exponent at a place and the place after it, or nothing where the number is not below q.
pub fn exponent(s: &[u8], at: usize, q: u32) -> Option<(Exponent, usize)>
    requires { at + 4 ≤ length s.now }
    ensures { result ≡ exponent_at s.now at q }
{
    let x = number4(s, at);
    (x < q).then_some((Exponent(x), at + 4))
}

// The count at a place and the place after it, or nothing where the number is above the most that it may be.
pub fn count(s: &[u8], at: usize, most: u32) -> Option<(u32, usize)>
    requires { at + 2 ≤ length s.now }
    ensures { result ≡ count_at s.now at most }
{
    let x = number2(s, at);
    (x <= most).then_some((x, at + 2))
}

// The number at a place, taken as an element without a test.
pub fn as_element(s: &[u8], at: usize) -> Element
    requires { at + 4 ≤ length s.now }
    ensures { result.0 ≡ number4 s.now at }
{
    Element(number4(s, at))
}

// The number at a place, taken as an exponent without a test.
pub fn as_exponent(s: &[u8], at: usize) -> Exponent
    requires { at + 4 ≤ length s.now }
    ensures { result.0 ≡ number4 s.now at }
{
    Exponent(number4(s, at))
}

// The first 8 bytes of a digest as a number, of no modulus yet.
fn number8(digest: &[u8; 32]) -> u64
    ensures { result ≡ number8 digest.now 0 }
{
    let [a, b, c, d, e, f, g, h, ..] = *digest;
    u64::from_be_bytes([a, b, c, d, e, f, g, h])
}

// A digest modulo q, a proof's challenge.
pub fn challenge(digest: &[u8; 32], q: u32) -> Exponent
    requires { 0 < q }
    ensures { result.0 ≡ number8 digest.now 0 % q }
{
    group::reduce(number8(digest), q)
}

// A digest modulo p, of which g1 is made.
pub fn hashed_element(digest: &[u8; 32], p: u32) -> Element
    requires { 0 < p }
    ensures { result.0 ≡ number8 digest.now 0 % p }
{
    group::reduce(number8(digest), p)
}

// The product modulo p of count words, stride bytes apart, but for the one numbered out.
pub fn product_besides(
    s: &[u8],
    p: u32,
    at: usize,
    stride: usize,
    count: usize,
    out: usize,
) -> Element
    requires p_nonzero { 0 < p }
    requires by_index { (j : ℕ) → j < count → at + stride * j + 4 ≤ length s.now }
    ensures { result.0 ≡ prod_below count (besides out (λ j. number4 s.now (at + stride * j))) % p }
{
    let mut r = Element(1 % p);
    for j in 0..count {
        if j != out {
            r = group::mul(p, r, as_element(s, at + stride * j));
        }
    }
    r
}

// The product of all of them: none has the number count.
#[tactic(auto, using(crate::proofs::Products::prod_all))]
pub fn product(s: &[u8], p: u32, at: usize, stride: usize, count: usize) -> Element
    requires p_nonzero { 0 < p }
    requires by_index { (j : ℕ) → j < count → at + stride * j + 4 ≤ length s.now }
    ensures { result.0 ≡ prod_below count (λ j. number4 s.now (at + stride * j)) % p }
{
    product_besides(s, p, at, stride, count, count)
}

// The marks and the lengths of records, and the kinds of boards, for checker and writer alike.
#![tactic(auto)]

ghost use Rattle.std.specs.Prelude.{◌≡◌, ◌≤◌, ◌<◌, ◌^◌};
ghost use Rattle.rules.specs.Records.{records_of, pairs_from, counted_length, audit_length, ballot_length, shift_length, sheet_length, record_length};
ghost use Rattle.rules.specs.Header.{ranked, small};

use rules::Model;

pub const HF: [u8; 2] = *b"HF";

pub const BA: [u8; 2] = *b"BA";

pub const SH: [u8; 2] = *b"SH";

pub const RT: [u8; 2] = *b"RT";

pub const HEADER_LENGTH: usize = 54;

// The kinds of ballots. A kind stays a number, the byte of a board: each other number is a kind too, and has its length below.
pub const COUNTED: usize = 0;

pub const AUDITED: usize = 1;

// Boards of rankings.
pub fn ranked() -> Model
    ensures { result ≡ ranked }
{
    Model {
        mark: HF,
        least: 2,
        most: 8,
        ballots: 1000,
        shows: 8,
        stores: 1000,
    }
}

// The same boards, held to what the screen in the council room shows and stores.
pub fn small() -> Model
    ensures { result ≡ small }
{
    Model {
        shows: 5,
        stores: 200,
        ..ranked()
    }
}

// The lengths. The processes n are a bare number: a header and a job each hold one, and a struct for n ≤ 8 would be made for each call alone.

// Of a counted BA.
pub fn counted_length(n: usize) -> usize
    requires { n ≤ 8 }
    ensures { (result ≡ counted_length n) × (result ≤ 4000) }
{
    5 + 40 * (n * n) + 32 * n
}

// Of what an audited BA shows behind its proofs.
pub fn audit_length(n: usize) -> usize
    requires { n ≤ 8 }
    ensures { (result ≡ audit_length n) × (result ≤ 300) }
{
    4 * (n * n) + n
}

// Of a BA of a kind.
pub fn ballot_length(n: usize, kind: usize) -> usize
    requires { n ≤ 8 }
    ensures { (result ≡ ballot_length n kind) × (result ≤ 10000) }
{
    if kind == AUDITED {
        counted_length(n) + audit_length(n)
    } else {
        counted_length(n)
    }
}

pub fn shift_length(n: usize, rows: usize) -> usize
    requires { (n ≤ 8) × (rows ≤ 8) }
    ensures { (result ≡ shift_length n rows) × (result ≤ 10000) }
{
    let pairs = rows * n;
    4 + 8 * pairs + (rows + 1) * (28 + 12 * pairs)
}

pub fn sheet_length(n: usize) -> usize
    requires { n ≤ 8 }
    ensures { (result ≡ sheet_length n) × (result ≤ 52) }
{
    4 + 6 * n
}

// How many records a ballot of a kind has in round m, from 0; an audited one has no SH.
#[tactic(auto, unfolding(rules::specs::Records::records_of))]
pub fn records_of(kind: usize, m: usize) -> usize
    ensures { (result ≡ records_of kind m) × (result ≤ 1) }
{
    if m == 0 || kind == COUNTED { 1 } else { 0 }
}

// Where the pairs of a ballot's record in round m start, the record standing at a place.
pub fn pairs_from(m: usize, at: usize) -> usize
    requires { at < 2 ^ 63 }
    ensures { result ≡ pairs_from m at }
{
    if m == 0 { at + 5 } else { at + 4 }
}

// The length of what it has there.
#[tactic(auto, unfolding(rules::specs::Records::record_length))]
pub fn record_length(n: usize, kind: usize, m: usize) -> usize
    requires { (n ≤ 8) × (m < n) }
    ensures { (result ≡ record_length n kind m) × (result ≤ 10000) }
{
    if m == 0 {
        ballot_length(n, kind)
    } else if kind == COUNTED {
        shift_length(n, n - m)
    } else {
        0
    }
}

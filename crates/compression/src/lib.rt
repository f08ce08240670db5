// FIPS 180-4, 6.2.2: the hash value after one block of 64 bytes.
#![tactic(auto)]

ghost use Rattle.std.specs.Prelude.{◌≡◌, ◌<◌};
ghost use Rattle.compression.specs.Words.{◌⊞◌, σ₀, σ₁};
ghost use Rattle.compression.specs.Block.{word, schedule, T₁, T₂, compress};

mod words;

static ROUND: [u32; 64] = [
    0x428a2f98, 0x71374491, 0xb5c0fbcf, 0xe9b5dba5, 0x3956c25b, 0x59f111f1, 0x923f82a4, 0xab1c5ed5,
    0xd807aa98, 0x12835b01, 0x243185be, 0x550c7dc3, 0x72be5d74, 0x80deb1fe, 0x9bdc06a7, 0xc19bf174,
    0xe49b69c1, 0xefbe4786, 0x0fc19dc6, 0x240ca1cc, 0x2de92c6f, 0x4a7484aa, 0x5cb0a9dc, 0x76f988da,
    0x983e5152, 0xa831c66d, 0xb00327c8, 0xbf597fc7, 0xc6e00bf3, 0xd5a79147, 0x06ca6351, 0x14292967,
    0x27b70a85, 0x2e1b2138, 0x4d2c6dfc, 0x53380d13, 0x650a7354, 0x766a0abb, 0x81c2c92e, 0x92722c85,
    0xa2bfe8a1, 0xa81a664b, 0xc24b8b70, 0xc76c51a3, 0xd192e819, 0xd6990624, 0xf40e3585, 0x106aa070,
    0x19a4c116, 0x1e376c08, 0x2748774c, 0x34b0bcb5, 0x391c0cb3, 0x4ed8aa4a, 0x5b9cca4f, 0x682e6ff3,
    0x748f82ee, 0x78a5636f, 0x84c87814, 0x8cc70208, 0x90befffa, 0xa4506ceb, 0xbef9a3f7, 0xc67178f2,
];

// The i-th word of a block.
#[tactic(auto, unfolding(crate::specs::Block::word))]
fn word_at(b: &[u8; 64], i: usize) -> u32
    requires { i < 16 }
    ensures { result ≡ word b.now i }
{
    let j = i * 4;
    u32::from_be_bytes([b[j], b[j + 1], b[j + 2], b[j + 3]])
}

// A word of the schedule, from those 16, 15, 7 and 2 places before it.
fn next_word(w16: u32, w15: u32, w7: u32, w2: u32) -> u32
    ensures { result ≡ σ₁ w2 ⊞ w7 ⊞ σ₀ w15 ⊞ w16 }
{
    words::lower1(w2)
        .wrapping_add(w7)
        .wrapping_add(words::lower0(w15))
        .wrapping_add(w16)
}

// The schedule of a block, in lent words: a result by value is copied twice, which is slower.
fn expand(b: &[u8; 64], w: &mut [u32; 64])
    ensures { w.new ≡ schedule b.now 48 }
{
    for i in 0..16 {
        w[i] = word_at(b, i);
    }
    for n in 0..48 {
        w[n + 16] = next_word(w[n], w[n + 1], w[n + 9], w[n + 14]);
    }
}

fn temp1(e: u32, f: u32, g: u32, h: u32, k: u32, w: u32) -> u32
    ensures { result ≡ T₁ e f g h k w }
{
    h.wrapping_add(words::upper1(e))
        .wrapping_add(words::ch(e, f, g))
        .wrapping_add(k)
        .wrapping_add(w)
}

fn temp2(a: u32, b: u32, c: u32) -> u32
    ensures { result ≡ T₂ a b c }
{
    words::upper0(a).wrapping_add(words::maj(a, b, c))
}

// The working variables are eight, and no array: with a round on an array of eight the loop is slower.
pub fn compress(state: [u32; 8], block: &[u8; 64]) -> [u32; 8]
    ensures { result ≡ compress state block.now }
{
    let mut ws = [0u32; 64];
    expand(block, &mut ws);
    let [mut a, mut b, mut c, mut d, mut e, mut f, mut g, mut h] = state;
    for t in 0..64 {
        let t1 = temp1(e, f, g, h, ROUND[t], ws[t]);
        let t2 = temp2(a, b, c);
        h = g;
        g = f;
        f = e;
        e = d.wrapping_add(t1);
        d = c;
        c = b;
        b = a;
        a = t1.wrapping_add(t2);
    }
    [
        state[0].wrapping_add(a),
        state[1].wrapping_add(b),
        state[2].wrapping_add(c),
        state[3].wrapping_add(d),
        state[4].wrapping_add(e),
        state[5].wrapping_add(f),
        state[6].wrapping_add(g),
        state[7].wrapping_add(h),
    ]
}

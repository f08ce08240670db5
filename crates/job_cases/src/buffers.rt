// The buffers of a job: its draws, and its output.
ghost use Rattle.std.specs.Prelude.{◌≡◌, ℕ, ◌*◌, ◌/◌, ◌≤◌, ◌<◌, length, get_or};
ghost use Rattle.rules.specs.Bytes.{number4};

pub const DRAWS: usize = 32768;

pub const ROOM: usize = 262144;

fn no_draws() -> [u32; DRAWS]
    ensures { 32768 ≡ length result }
{
    [0; DRAWS]
}

pub fn no_output() -> [u8; ROOM]
    ensures { 262144 ≡ length result }
{
    [0; ROOM]
}

// Each 4 bytes as a number.
pub fn draws_of(bytes: &[u8]) -> [u32; DRAWS]
    requires { length bytes.now ≤ 131075 }
    ensures { (32768 ≡ length result) × ((i : ℕ) → i < length bytes.now / 4 → get_or result i 0 ≡ number4 bytes.now (4 * i)) }
{
    let mut draws = no_draws();
    let count = bytes.len() / 4;
    for i in 0..count {
        draws[i] = fields::number4(bytes, 4 * i);
    }
    draws
}

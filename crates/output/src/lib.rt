// Numbers written at the front of a lent part of an output, high byte first.
#![tactic(auto)]

ghost use Rattle.std.specs.Prelude.{◌≡◌, ◌≤◌, [], ◌∷◌, length};
ghost use Rattle.rules.specs.Bytes.{bytes2, bytes4};
ghost use Rattle.output.specs.Written.{written};

// No `copy_from_slice`: where the output is a field of a struct, it asks the host for `memmove`, which README does not name.
pub fn put_bytes(out: &mut [u8], s: &[u8])
    requires { length s.now ≤ length out.old }
    ensures { out.new ≡ written s.now out.old }
{
    for i in 0..s.len() {
        out[i] = s[i];
    }
}

pub fn put_byte(out: &mut [u8], x: u8)
    requires { 1 ≤ length out.old }
    ensures { out.new ≡ written (x ∷ []) out.old }
{
    put_bytes(out, &[x]);
}

pub fn put_two(out: &mut [u8], two: [u8; 2])
    requires { 2 ≤ length out.old }
    ensures { out.new ≡ written two out.old }
{
    put_bytes(out, &two);
}

pub fn put_number2(out: &mut [u8], x: u32)
    requires { 2 ≤ length out.old }
    ensures { out.new ≡ written (bytes2 x) out.old }
{
    let [.., high, low] = x.to_be_bytes();
    put_bytes(out, &[high, low]);
}

pub fn put_number4(out: &mut [u8], x: u32)
    requires { 4 ≤ length out.old }
    ensures { out.new ≡ written (bytes4 x) out.old }
{
    put_bytes(out, &x.to_be_bytes());
}

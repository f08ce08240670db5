// The list that is lent: before each case every place holds 65,535, which is no ballot's number.
ghost use Rattle.std.specs.Prelude.{◌≡◌, ◌+◌, ◌-◌, eqb, length, get_or, replicate};
ghost use Rattle.numbers.specs.Below.{all_below};

pub const ROOM: usize = 512;

pub fn filled() -> [u16; ROOM]
    ensures { result ≡ replicate 512 65535 }
{
    [65535; ROOM]
}

// Whether a list is as it was from a place on.
pub fn kept(list: &[u16], from: usize) -> bool
    ensures { result ≡ all_below (length list.now - from) (λ i. eqb (get_or list.now (from + i) 0) 65535) }
{
    if list.len() <= from {
        return true;
    }
    for i in 0..list.len() - from {
        if list[from + i] != 65535 {
            return false;
        }
    }
    true
}

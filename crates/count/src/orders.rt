// The first of an order of going out, and two processes and one compared by their counts.
ghost use Rattle.std.specs.Prelude.{◌≡◌, ◌≤◌, take};
ghost use Rattle.rules.specs.Count.{fewer};
ghost use Rattle.count.specs.State.{counts_by, list_of, Listed, passes};

use crate::{Gone, Sheet};

// Whether process a had fewer votes than b in the latest of so many rounds where they differ.
pub(crate) fn fewer(sheets: [Sheet; 8], rounds: usize, a: usize, b: usize) -> bool
    requires { (rounds ≤ 8) × (1 ≤ a) × (a ≤ 8) × (1 ≤ b) × (b ≤ 8) }
    ensures { result ≡ fewer (counts_by sheets) rounds a b }
{
    for i in (0..rounds).rev() {
        let sheet = sheets[i];
        let x = sheet.counts[a - 1];
        let y = sheet.counts[b - 1];
        if x != y {
            return x < y;
        }
    }
    false
}

// Whether a process is still in and has more than half of k votes.
pub(crate) fn passes(out: bool, votes: u32, k: u32) -> bool
    ensures { result ≡ passes out votes k }
{
    !out && u64::from(k) < 2 * u64::from(votes)
}

// The first of an order of going out.
pub fn first_of(order: [u8; 8], outs: usize) -> Gone
    requires { outs ≤ 8 }
    ensures { (result.outs ≡ outs) × Listed result × (list_of result ≡ take outs order) }
{
    let mut first = [0u8; 8];
    first[..outs].copy_from_slice(&order[..outs]);
    Gone { outs, order: first }
}

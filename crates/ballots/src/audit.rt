// What an audited ballot shows behind its proofs: the exponents of its pairs by rows, and its ranking.
ghost use Rattle.std.specs.Prelude.{◌≡◌, ◌+◌, ◌*◌, ◌^◌, ◌≤◌, ◌<◌, length, get_or};
ghost use Rattle.numbers.specs.Below.{concat_below};
ghost use Rattle.rules.specs.Bytes.{bytes4};
ghost use Rattle.rules.specs.Records.{audit_length};
ghost use Rattle.jobs.specs.Records.{audit_bytes};
ghost use Rattle.output.specs.Written.{written};

use crate::ballot::Ballot;

fn write_exponents(out: &mut [u8], count: usize, draws: &[u32], from: usize)
    requires { (count ≤ 64) × (4 * count ≤ length out.old) × (from < 2 ^ 40) × (from + count ≤ length draws.now) }
    ensures { out.new ≡ written (concat_below count (λ c. bytes4 (get_or draws.now (from + c) 0))) out.old }
{
    for c in 0..count {
        let at = 4 * c;
        output::put_number4(&mut out[at..], draws[from + c]);
    }
}

pub fn write_audit(out: &mut [u8], b: Ballot, draws: &[u32])
    requires { (b.n ≤ 8) × (audit_length b.n ≤ length out.old) × (b.from < 2 ^ 40) × (b.from + b.n * b.n ≤ length draws.now) }
    ensures { out.new ≡ written (audit_bytes b.n (λ k. get_or b.list k 0) draws.now b.from) out.old }
{
    let count = b.n * b.n;
    let at = 4 * count;
    write_exponents(out, count, draws, b.from);
    output::put_bytes(&mut out[at..], &b.list[..b.n]);
}

// Digests of 32 bytes, one after another in a lent list: their order, byte by byte from the first, and the numbers entered for them.
#![tactic(auto)]

ghost use Rattle.std.specs.Prelude.{◌≡◌, true, false, ◌≤◌, length, MatchOption};
ghost use Rattle.rules.specs.Receipts.{digest_count, digests_good};
ghost use Rattle.digests.specs.Order.{Listed, Filled, entered};

// At most 500 digests, in rising order.
#[derive(Clone, Copy)]
pub struct Digests<'a> {
    pub lent: &'a [u8],
    pub ghost good: { digests_good lent.now ≡ true },
}

// 16: a multiple of 32 bytes, 500 digests at most, in rising order.
pub fn digests_good(lent: &[u8]) -> bool
    ensures { result ≡ digests_good lent.now }
{
    let (list, rest) = lent.as_chunks::<32>();
    rest.is_empty() && list.len() <= 500 && list.is_sorted()
}

// A number at each place that has none.
fn fill_free(places: &mut [u16], number: u16)
    ensures { Filled number places.old places.new }
{
    for place in places.iter_mut() {
        let fresh = *place == 0;
        if fresh {
            *place = number;
        }
    }
}

impl<'a> Digests<'a> {
    // The digests that are lent; none where they break 16.
    pub fn new(lent: &'a [u8]) -> Option<Digests<'a>>
        ensures { MatchOption result (digests_good lent.entry.now ≡ false) (λ d. d.lent ≡ lent.entry) }
    {
        if !digests_good(lent) {
            return None;
        }
        Some(Digests { lent })
    }

    pub fn count(&self) -> usize
        ensures { (result ≡ digest_count self.now.lent.now) × (result ≤ 500) }
    {
        self.lent.len() / 32
    }

    fn list(&self) -> &'a [[u8; 32]]
        ensures { Listed self.now.lent.now result.now }
    {
        self.lent.as_chunks::<32>().0
    }

    // A ballot's number is entered at each digest that is its record's, d, and has no number yet.
    pub fn enter(&self, d: &[u8; 32], number: u16, numbers: &mut [u16])
        requires { length numbers.old ≡ digest_count self.now.lent.now }
        ensures { numbers.new ≡ entered self.now.lent.now d.now number numbers.old }
    {
        let list = self.list();
        let first = list.partition_point(|x| x < d);
        let end = list.partition_point(|x| x <= d);
        fill_free(&mut numbers[first..end], number);
    }
}

// The names of processes as they are lent: each is 1 to 20 letters with a line feed after it.
#![tactic(auto)]

ghost use Rattle.std.specs.Prelude.{◌≡◌, not, ◌&&◌, ◌+◌, ◌≤◌, ◌<◌, leb, eqb, length, get_or, is_some, IfSome};
ghost use Rattle.numbers.specs.Below.{all_below};
ghost use Rattle.rules.specs.Receipts.{same};
ghost use Rattle.rules.specs.Notice.{letters_of, name_of, names_good};
ghost use Rattle.names.specs.Lent.{Started};

// Names that fit, and where the name of each process starts, and past the line feed after the last; room for 8, since nothing is allocated.
#[derive(Clone, Copy)]
pub struct Names<'a> {
    pub lent: &'a [u8],
    pub count: usize,
    pub starts: [usize; 9],
    pub ghost started: { Started lent.now count starts },
}

// How many letters stand at the front.
fn letters(s: &[u8]) -> usize
    ensures { (result ≡ letters_of s.now) × (result ≤ length s.now) }
{
    s.iter()
        .position(|x| !x.is_ascii_alphabetic())
        .unwrap_or(s.len())
}

// Whether so many letters at a place are a name with a line feed after it.
fn fits(lent: &[u8], at: usize, letters: usize) -> bool
    requires { at + letters ≤ length lent.now }
    ensures { result ≡ (leb 1 letters && leb letters 20 && eqb (get_or lent.now (at + letters) 0) 10) }
{
    1 <= letters && letters <= 20 && at + letters < lent.len() && lent[at + letters] == 10
}

impl<'a> Names<'a> {
    // The name of process i + 1.
    pub fn name(&self, i: usize) -> &'a [u8]
        requires { i < self.now.count }
        ensures { result.now ≡ name_of self.now.lent.now i }
    {
        let start = self.starts[i];
        let end = self.starts[i + 1] - 1;
        &self.lent[start..end]
    }

    // Whether the name of process i + 1 is none of those before it.
    fn is_new(&self, i: usize) -> bool
        requires { i < self.now.count }
        ensures { result ≡ all_below i (λ j. not (same (name_of self.now.lent.now i) (name_of self.now.lent.now j))) }
    {
        let name = self.name(i);
        (0..i).all(|j| name != self.name(j))
    }

    // Whether no two names are the same.
    fn all_different(&self) -> bool
        ensures { result ≡ all_below self.now.count (λ i. all_below i (λ j. not (same (name_of self.now.lent.now i) (name_of self.now.lent.now j)))) }
    {
        (0..self.count).all(|i| self.is_new(i))
    }
}

// n names: each fits, nothing stands behind the last, and no two are the same.
pub fn read_names<'a>(lent: &'a [u8], n: usize) -> Option<Names<'a>>
    requires { n ≤ 8 }
    ensures good { is_some result ≡ names_good lent.now n }
    ensures read { IfSome result (λ names. (names.lent.now ≡ lent.now) × (names.count ≡ n)) }
{
    let mut starts = [0usize; 9];
    let mut at = 0;
    for i in 0..n {
        let letters = letters(&lent[at..]);
        if !fits(lent, at, letters) {
            return None;
        }
        at += letters + 1;
        starts[i + 1] = at;
    }
    if at != lent.len() {
        return None;
    }
    let names = Names {
        lent,
        count: n,
        starts,
    };
    names.all_different().then_some(names)
}

// The name of an overlap.
ghost use Rattle.std.specs.Prelude.{◌≡◌, ◌<◌};
ghost use Rattle.judge.specs.Pairs.{triple_number, Ranged};

// A left side has at most so many places, and a book at most so many rules.
const MOST: usize = 32;

// So many triples begin with one rule.
pub(crate) const TRIPLES: usize = MOST * MOST;

// The rules i and j overlap at the place p of left side i.
#[derive(Clone, Copy, PartialEq, Eq, Debug)]
pub struct Triple {
    pub i: usize,
    pub p: usize,
    pub j: usize,
}

impl Triple {
    // The triple with the number in ascending sequence.
    pub(crate) fn numbered(number: usize) -> Triple
        ensures ranged { Ranged result }
        ensures number { triple_number result ≡ number }
    {
        Triple {
            i: number / TRIPLES,
            p: number / MOST % MOST,
            j: number % MOST,
        }
    }

    // Its number in ascending sequence.
    pub(crate) fn number(&self) -> usize
        requires few { self.now.i < 32 }
        requires ranged { Ranged self.now }
        ensures { result ≡ triple_number self.now }
    {
        TRIPLES * self.i + MOST * self.p + self.j
    }
}

// Why a book is refused.
ghost use Rattle.std.specs.Prelude.{◌≡◌};
ghost use Rattle.book.specs.Faults.{number_of, offset_of};

// Each case but the first carries the offset of the field that is refused.
#[derive(Clone, Copy, PartialEq, Eq, Debug)]
pub enum Fault {
    TooLong,
    NotWhole(usize),
    UnknownTag(usize),
    WrongLength(usize),
    BadSymbol(usize),
    BadRule(usize),
    TooManyRules(usize),
}

impl Fault {
    // The number of the question that says no.
    pub fn number(&self) -> u8
        ensures { result ≡ number_of self.now }
    {
        match self {
            Fault::TooLong => 1,
            Fault::NotWhole(_) => 2,
            Fault::UnknownTag(_) => 3,
            Fault::WrongLength(_) => 4,
            Fault::BadSymbol(_) => 5,
            Fault::BadRule(_) => 6,
            Fault::TooManyRules(_) => 7,
        }
    }

    // The offset of the refused field, if the fault is one of a field.
    pub fn offset(&self) -> Option<usize>
        ensures { result ≡ offset_of self.now }
    {
        match self {
            Fault::TooLong => None,
            Fault::NotWhole(at)
            | Fault::UnknownTag(at)
            | Fault::WrongLength(at)
            | Fault::BadSymbol(at)
            | Fault::BadRule(at)
            | Fault::TooManyRules(at) => Some(*at),
        }
    }
}

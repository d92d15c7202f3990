// Why a book gives no path order.
ghost use Rattle.std.specs.Prelude.{◌≡◌};
ghost use Rattle.orders.specs.PathFaults.{number_of, offset_of};

use crate::book_order::FigureFault;

// Each case carries an offset: of the field of a rank, or of the symbol that has none.
#[derive(Clone, Copy, PartialEq, Eq, Debug)]
pub enum PathFault {
    BadRank(usize),
    NoRank(usize),
}

impl FigureFault for PathFault {
    ghost question = { number_of };

    ghost field_at = { offset_of };

    // The number of the question that says no.
    fn number(&self) -> u8
        ensures { result ≡ number_of self.now }
    {
        match self {
            PathFault::BadRank(_) => 12,
            PathFault::NoRank(_) => 13,
        }
    }

    // The offset of the field.
    fn offset(&self) -> usize
        ensures { result ≡ offset_of self.now }
    {
        match self {
            PathFault::BadRank(at) | PathFault::NoRank(at) => *at,
        }
    }
}

// Why a book gives no polynomial order.
ghost use Rattle.std.specs.Prelude.{◌≡◌};
ghost use Rattle.orders.specs.PolynomialFaults.{number_of, offset_of};

use crate::book_order::FigureFault;

// Each case carries an offset: of the field of a polynomial, or of the symbol that has none.
#[derive(Clone, Copy, PartialEq, Eq, Debug)]
pub enum PolynomialFault {
    NotFirst(usize),
    BadMonomial(usize),
    NoArgument(usize),
    NoPolynomial(usize),
}

impl FigureFault for PolynomialFault {
    ghost question = { number_of };

    ghost field_at = { offset_of };

    // The number of the question that says no.
    fn number(&self) -> u8
        ensures { result ≡ number_of self.now }
    {
        match self {
            PolynomialFault::NotFirst(_) => 8,
            PolynomialFault::BadMonomial(_) => 9,
            PolynomialFault::NoArgument(_) => 10,
            PolynomialFault::NoPolynomial(_) => 11,
        }
    }

    // The offset of the field.
    fn offset(&self) -> usize
        ensures { result ≡ offset_of self.now }
    {
        match self {
            PolynomialFault::NotFirst(at)
            | PolynomialFault::BadMonomial(at)
            | PolynomialFault::NoArgument(at)
            | PolynomialFault::NoPolynomial(at) => *at,
        }
    }
}

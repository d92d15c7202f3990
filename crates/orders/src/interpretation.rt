// What is asked of the fields of polynomials.
ghost use Rattle.std.proofs.Common.{lit≤};
ghost use Rattle.orders.specs.Polynomials.{polynomial_questions};

use crate::figures::FieldQuestions;
use crate::monomials::{has_arguments, monomials_fit};
use crate::polynomial_fault::PolynomialFault;
use book::book::Book;
use book::field::Field;
use book::shape::POLYNOMIAL;
use polynomials::monomial::Monomials;
use terms::prefix::Signature;

impl FieldQuestions for PolynomialFault {
    const TAG: u8 = POLYNOMIAL;

    ghost TAG = { 3 };

    ghost asked = { polynomial_questions };

    ghost last = { 11 };

    fn not_first(at: usize) -> PolynomialFault {
        PolynomialFault::NotFirst(at)
    }

    // Whether the field's monomials fit the arity of its code, and have each of its arguments.
    fn check(book: &Book, field: &Field) -> Result<(), PolynomialFault> {
        let arity = book.arity(field.value[0]).unwrap_or(0);
        let monomials = Monomials::new(&field.value[1..]);
        if !monomials_fit(arity, monomials) {
            return Err(PolynomialFault::BadMonomial(field.offset));
        }
        if !has_arguments(arity, monomials) {
            return Err(PolynomialFault::NoArgument(field.offset));
        }
        Ok(())
    }

    fn no_figures(at: usize) -> PolynomialFault {
        PolynomialFault::NoPolynomial(at)
    }

    ghost coded = { lit≤ tt };
}

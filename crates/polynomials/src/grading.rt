// How two terms compare by their measures and their coefficients.
ghost use Rattle.std.specs.Prelude.{◌≡◌};
ghost use Rattle.terms.specs.Term.{Term};
ghost use Rattle.terms.specs.Prefix.{Reads};
ghost use Rattle.polynomials.specs.Grade.{grade};
ghost use Rattle.polynomials.specs.GradeNumbers.{number_of};

use crate::prefix_term::PrefixTerm;
use crate::symbols::Symbols;

// How two terms compare: the left one is seen to be over the right one, or it is not; or a value is too large, or an exponent above 3.
#[derive(Clone, Copy, PartialEq, Eq, Debug)]
pub(crate) enum Grade {
    Over,
    NotOver,
    TooLarge,
    TooSteep,
}

impl Grade {
    // The grade's number, from 0 to 3.
    pub(crate) fn number(self) -> u8
        ensures { result ≡ number_of self }
    {
        match self {
            Grade::Over => 0,
            Grade::NotOver => 1,
            Grade::TooLarge => 2,
            Grade::TooSteep => 3,
        }
    }
}

// The grade of two terms: TooSteep comes first, then TooLarge, and only then are coefficients compared.
pub(crate) fn grade_terms<'a, S: Symbols>(
    left: &PrefixTerm<'a, S>,
    right: &PrefixTerm<'a, S>,
) -> Grade
    requires { right.now.symbols.now ≡ left.now.symbols.now }
    ensures { (s t : Term) → Reads (S.Signature.arities left.now.symbols.now) 4 left.now.bytes.now s → Reads (S.Signature.arities left.now.symbols.now) 4 right.now.bytes.now t → number_of result ≡ grade (S.Symbols.interpretation left.now.symbols.now) s t }
{
    if left.is_steep() || right.is_steep() {
        return Grade::TooSteep;
    }
    if left.is_large() || right.is_large() {
        return Grade::TooLarge;
    }
    let p = left.shifted_coefficients();
    let q = right.shifted_coefficients();
    if !p.any_negative(&q) && p.positive_constant(&q) {
        Grade::Over
    } else {
        Grade::NotOver
    }
}

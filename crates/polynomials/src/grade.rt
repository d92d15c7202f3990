// The grade of two terms, as a number.
ghost use Rattle.polynomials.specs.Grade.{Graded};

use crate::grading::grade_terms;
use crate::prefix_term::PrefixTerm;
use crate::symbols::Symbols;

// The grade of two terms with the first four variables as a number, or None if the bytes are not two such terms.
pub fn grade<S: Symbols>(symbols: &S, left: &[u8], right: &[u8]) -> Option<u8>
    ensures { Graded (S.Signature.arities symbols.now) (S.Symbols.interpretation symbols.now) left.now right.now result }
{
    let left = PrefixTerm::new(symbols, left)?;
    let right = PrefixTerm::new(symbols, right)?;
    Some(grade_terms(&left, &right).number())
}

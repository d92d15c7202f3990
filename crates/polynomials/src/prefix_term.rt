// Terms as bytes, and what is asked of them before they are graded.
ghost use Rattle.std.specs.Prelude.{◌≡◌, nat_lt, MatchOption};
ghost use Rattle.terms.specs.Term.{Term};
ghost use Rattle.terms.specs.Prefix.{IsTerm, Reads};
ghost use Rattle.polynomials.specs.Polynomial.{degree};
ghost use Rattle.polynomials.specs.Interpretation.{polynomial_of, shifted};
ghost use Rattle.polynomials.specs.Cells.{Holds, TermRoom};
ghost use Rattle.polynomials.specs.Grade.{steep, large};

use crate::algebra::evaluate;
use crate::measure::{AtTwo, DegreeIn, LIMIT};
use crate::shifted::ShiftedCoefficients;
use crate::symbols::Symbols;
use crate::table::Table;
use terms::prefix::is_term;

// The variables that polynomials have.
const VARIABLES: u8 = 4;

// The bytes of a term with the first four variables.
#[derive(Drop)]
pub(crate) struct PrefixTerm<'a, S: Symbols> {
    symbols: &'a S,
    bytes: &'a [u8],
    ghost is_one: { ∥ IsTerm (S.Signature.arities symbols.now) 4 bytes.now ∥₁ },
}

impl<'a, S: Symbols> PrefixTerm<'a, S> {
    // The term, or None if the bytes are no such term.
    pub(crate) fn new(symbols: &'a S, bytes: &'a [u8]) -> Option<PrefixTerm<'a, S>>
        ensures { MatchOption result (IsTerm (S.Signature.arities symbols.now) 4 bytes.now → ⊥) (λ t. (t.symbols.now ≡ symbols.now) × (t.bytes.now ≡ bytes.now)) }
    {
        if !is_term(symbols, VARIABLES, bytes) {
            return None;
        }
        Some(PrefixTerm { symbols, bytes })
    }

    // Whether the degree in a variable is above 3.
    fn is_steep_in(&self, variable: u8) -> bool
        ensures { (t : Term) → Reads (S.Signature.arities self.now.symbols.now) 4 self.now.bytes.now t → result ≡ nat_lt 3 (degree variable (polynomial_of (S.Symbols.interpretation self.now.symbols.now) t)) }
    {
        let (degree, _) = evaluate(self.symbols, &DegreeIn { variable }, self.bytes);
        degree > 3
    }

    // Whether some variable has an exponent above 3.
    pub(crate) fn is_steep(&self) -> bool
        ensures { (t : Term) → Reads (S.Signature.arities self.now.symbols.now) 4 self.now.bytes.now t → result ≡ steep (polynomial_of (S.Symbols.interpretation self.now.symbols.now) t) }
    {
        (0..VARIABLES).any(|variable| self.is_steep_in(variable))
    }

    // Whether the value with every variable at 2 is above 2147483647.
    pub(crate) fn is_large(&self) -> bool
        ensures { (t : Term) → Reads (S.Signature.arities self.now.symbols.now) 4 self.now.bytes.now t → result ≡ large (polynomial_of (S.Symbols.interpretation self.now.symbols.now) t) }
    {
        let (value, _) = evaluate(self.symbols, &AtTwo, self.bytes);
        value >= LIMIT
    }

    // The shifted coefficients, for which there is room in a table.
    pub(crate) fn shifted_coefficients(&self) -> Table
        requires { (t : Term) → Reads (S.Signature.arities self.now.symbols.now) 4 self.now.bytes.now t → TermRoom (S.Symbols.interpretation self.now.symbols.now) t }
        ensures { (t : Term) → Reads (S.Signature.arities self.now.symbols.now) 4 self.now.bytes.now t → Holds result.cells (shifted (S.Symbols.interpretation self.now.symbols.now) t) }
    {
        let (table, _) = evaluate(self.symbols, &ShiftedCoefficients, self.bytes);
        table
    }
}

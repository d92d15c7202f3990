// What a term is worth, from what its arguments are worth.
ghost use Rattle.std.specs.Prelude.{◌≡◌, ℕ, ◌+◌, ◌<◌, ◌≤◌};
ghost use Rattle.terms.specs.Term.{Term, Terms, var, node, how_many};
ghost use Rattle.terms.specs.Prefix.{Arities, Begins, behind, head_term};
ghost use Rattle.polynomials.specs.Interpretation.{Interpretation, Application, Throughout};
ghost use Rattle.polynomials.specs.Coding.{polynomial_from};

use crate::symbols::Symbols;
use terms::prefix::VARIABLE;

pub(crate) trait Algebra {
    // What a term is worth.
    type Value: Drop;

    // What the arguments of a symbol are worth, of which there are at most three.
    type Arguments: Drop;

    // What is asked of a term.
    ghost fits: { Self → Interpretation → Term → Type 0 };

    // The term is worth the value.
    ghost worth: { Self → Interpretation → Term → Self.Value → Type 0 };

    // The first i of the terms have what they are worth entered, and no other has.
    ghost entered: { Self → Interpretation → Terms → ℕ → Self.Arguments → Type 0 };

    // What a variable is worth.
    fn variable(&self, x: u8) -> Self::Value
        requires { (128 ≤ x) × (x < 132) }
        ensures { (interpretation : Interpretation) → worth self.now interpretation (var x) result };

    // No argument is entered yet.
    fn no_arguments(&self) -> Self::Arguments
        ensures { (interpretation : Interpretation) (ts : Terms) → entered self.now interpretation ts 0 result };

    // Enters what the argument i is worth.
    fn enter(&self, arguments: &mut Self::Arguments, i: usize, value: Self::Value)
        requires inside { i < 3 }
        requires next { (interpretation : Interpretation) × (ts : Terms) × (i < how_many ts) × entered self.now interpretation ts i arguments.old × worth self.now interpretation (head_term (behind i ts)) value }
        ensures { (interpretation : Interpretation) (ts : Terms) → i < how_many ts → entered self.now interpretation ts i arguments.old → worth self.now interpretation (head_term (behind i ts)) value → entered self.now interpretation ts (i + 1) arguments.new };

    // What a symbol is worth, where all its arguments are entered.
    fn symbol(&self, monomials: &[u8], arguments: &Self::Arguments) -> Self::Value
        requires { (sig : Arities) × (interpretation : Interpretation) × (f : ℕ) × (ts : Terms) × Application sig interpretation f ts (polynomial_from monomials.now) × fits self.now interpretation (node f ts) × entered self.now interpretation ts (how_many ts) arguments.now }
        ensures { (sig : Arities) (interpretation : Interpretation) (f : ℕ) (ts : Terms) → Application sig interpretation f ts (polynomial_from monomials.now) → fits self.now interpretation (node f ts) → entered self.now interpretation ts (how_many ts) arguments.now → worth self.now interpretation (node f ts) result };
}

// What the term that the bytes begin with is worth, and the bytes behind it.
pub(crate) fn evaluate<'a, S: Symbols, A: Algebra>(
    symbols: &S,
    algebra: &A,
    bytes: &'a [u8],
) -> (A::Value, &'a [u8])
    requires { (t : Term) × Begins (S.Signature.arities symbols.now) 4 bytes.now t × Throughout (A.Algebra.fits algebra.now (S.Symbols.interpretation symbols.now)) t }
    ensures { (t : Term) (begins : Begins (S.Signature.arities symbols.now) 4 bytes.now t) → Throughout (A.Algebra.fits algebra.now (S.Symbols.interpretation symbols.now)) t → A.Algebra.worth algebra.now (S.Symbols.interpretation symbols.now) t result.0 × (result.1.now ≡ begins.rest) }
{
    let code = bytes[0];
    let mut rest = &bytes[1..];
    if code >= VARIABLE {
        return (algebra.variable(code), rest);
    }
    let arity = symbols.arity(code).unwrap();
    let monomials = symbols.monomials(code);
    let mut arguments = algebra.no_arguments();
    for i in 0..arity as usize {
        let (value, behind) = evaluate(symbols, algebra, rest);
        algebra.enter(&mut arguments, i, value);
        rest = behind;
    }
    (algebra.symbol(monomials, &arguments), rest)
}

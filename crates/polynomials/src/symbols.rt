// What gives each symbol its arity and its polynomial.
ghost use Rattle.std.specs.Prelude.{◌≡◌};
ghost use Rattle.polynomials.specs.Interpretation.{Interpretation, Proper};
ghost use Rattle.polynomials.specs.Coding.{polynomial_from};

use terms::prefix::Signature;

pub trait Symbols: Signature {
    ghost interpretation: { Self → Interpretation };

    // The monomials of a code's polynomial, of seven bytes each.
    fn monomials(&self, code: u8) -> &[u8]
        ensures { polynomial_from result.now ≡ interpretation self.now code };

    ghost proper: { (s : Self) → Proper (Self.arities s) (interpretation s) };
}

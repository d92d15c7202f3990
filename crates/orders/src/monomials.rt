// Whether monomials are those of a symbol's polynomial.
ghost use Rattle.std.specs.Prelude.{◌≡◌, ℕ, ◌<◌, ◌≤◌, [], Decides};
ghost use Rattle.polynomials.specs.Polynomial.{exponent, degree};
ghost use Rattle.polynomials.specs.Coding.{polynomial_from};
ghost use Rattle.polynomials.specs.Meant.{meant};
ghost use Rattle.orders.specs.Polynomials.{HasExponents, MonomialsFit, HasArguments};

use polynomials::monomial::{Monomial, Monomials};

// The greatest factor, and the greatest exponent.
const FACTOR_LIMIT: u32 = 65_535;

const EXPONENT_LIMIT: u8 = 3;

// Whether the exponent of the argument i is small, and 0 if there is no such argument.
fn exponent_fits(arity: u8, i: u8, exponent: u8) -> bool
    ensures { Decides result ((exponent ≤ 3) × (arity ≤ i → exponent ≡ 0)) }
{
    exponent <= EXPONENT_LIMIT && (i < arity || exponent == 0)
}

// Whether no exponent is greater than the limit, and those past the arity are 0.
fn exponents_fit(arity: u8, monomial: &Monomial) -> bool
    ensures { Decides result (((i : ℕ) → exponent i (meant monomial.now).exponents ≤ 3) × ((i : ℕ) → arity ≤ i → exponent i (meant monomial.now).exponents ≡ 0)) }
{
    let [e0, e1, e2] = monomial.exponents;
    exponent_fits(arity, 0, e0) && exponent_fits(arity, 1, e1) && exponent_fits(arity, 2, e2)
}

// Whether the factor is from 1 to the limit, and the exponents fit.
fn fits_alone(arity: u8, monomial: &Monomial) -> bool
    ensures { Decides result (((1 ≤ monomial.now.factor) × (monomial.now.factor ≤ 65535))
        × (((i : ℕ) → exponent i (meant monomial.now).exponents ≤ 3) × ((i : ℕ) → arity ≤ i → exponent i (meant monomial.now).exponents ≡ 0))) }
{
    (1..=FACTOR_LIMIT).contains(&monomial.factor) && exponents_fit(arity, monomial)
}

// Whether one of the monomials has the exponents of this one.
fn has_exponents(monomials: Monomials, of: &Monomial) -> bool
    ensures { Decides result (HasExponents (meant of.now).exponents (polynomial_from monomials.entry.bytes.now)) }
{
    for monomial in monomials {
        if monomial.exponents == of.exponents {
            return true;
        }
    }
    false
}

// Whether each monomial fits, and no two have the same exponents.
pub(crate) fn monomials_fit(arity: u8, monomials: Monomials) -> bool
    ensures { Decides result (MonomialsFit arity [] (polynomial_from monomials.entry.bytes.now)) }
{
    let mut rest = monomials;
    while let Some(monomial) = rest.next() {
        if !fits_alone(arity, &monomial) {
            return false;
        }
        if has_exponents(rest, &monomial) {
            return false;
        }
    }
    true
}

// Whether some monomial has the argument i.
fn has_argument(monomials: Monomials, i: u8) -> bool
    requires { i < 3 }
    ensures { Decides result (1 ≤ degree i (polynomial_from monomials.entry.bytes.now)) }
{
    for monomial in monomials {
        if monomial.exponents[i as usize] != 0 {
            return true;
        }
    }
    false
}

// Whether the monomials have each of the arguments.
pub(crate) fn has_arguments(arity: u8, monomials: Monomials) -> bool
    requires { arity ≤ 3 }
    ensures { Decides result (HasArguments arity (polynomial_from monomials.entry.bytes.now)) }
{
    (0..arity).all(|i| has_argument(monomials, i))
}

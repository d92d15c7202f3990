// Measures of terms, cut off at a limit: the value with every variable at 2, and the degrees.
ghost use Rattle.std.specs.Prelude.{◌≡◌, ℕ, ◌+◌, ◌*◌, ◌^◌, ◌<◌, ◌≤◌, ⊤, [], ◌∷◌, slice_index, slice_set};
ghost use Rattle.polynomials.specs.Polynomial.{power_product, value, greatest, dot};
ghost use Rattle.polynomials.specs.Coding.{polynomial_from, cut_off};
ghost use Rattle.polynomials.specs.Measured.{ValueAtTwo, Degree, measured, Filled};
ghost use Rattle.polynomials.specs.Meant.{meant};

use crate::algebra::Algebra;
use crate::monomial::{Monomial, Monomials};
use terms::prefix::VARIABLE;

// Where values are cut off: the first that is too large.
pub(crate) const LIMIT: u64 = 2147483648;

// The number, or the limit where it is larger.
#[tactic(auto, unfolding(crate::specs::Coding::cut_off))]
fn cut(n: u64) -> u64
    ensures { result ≡ cut_off 2147483648 n }
{
    n.min(LIMIT)
}

// `start` times a power of `base`, cut off.
fn times_power(start: u64, base: u64, exponent: u8) -> u64
    ensures { result ≡ cut_off 2147483648 (start * base ^ exponent) }
{
    cut(start.saturating_mul(base.saturating_pow(exponent as u32)))
}

// The measures of a symbol's three arguments, cut off; 0 for one that is missing.
#[derive(Clone, Copy)]
pub(crate) struct Measures {
    numbers: [u64; 3],
    ghost small: { (i : ℕ) → slice_index numbers i ≤ 2147483648 },
}

impl Measures {
    fn zeros() -> Measures
        ensures { result.numbers ≡ 0 ∷ 0 ∷ 0 ∷ [] }
    {
        Measures { numbers: [0; 3] }
    }

    fn put(&mut self, i: usize, number: u64)
        requires inside { i < 3 }
        requires small { number ≤ 2147483648 }
        ensures { self.new.numbers ≡ slice_set self.old.numbers i number }
    {
        self.numbers[i] = number;
    }
}

// The value of a monomial, where the arguments have their values.
fn monomial_value(monomial: Monomial, args: &Measures) -> u64
    ensures { result ≡ cut_off 2147483648 ((meant monomial).factor * power_product args.now.numbers (meant monomial).exponents) }
{
    let [e0, e1, e2] = monomial.exponents;
    let first = times_power(monomial.factor as u64, args.numbers[0], e0);
    let second = times_power(first, args.numbers[1], e1);
    times_power(second, args.numbers[2], e2)
}

// The value of a symbol's polynomial, where the arguments have their values.
fn symbol_value(monomials: &[u8], args: &Measures) -> u64
    ensures { result ≡ cut_off 2147483648 (value args.now.numbers (polynomial_from monomials.now)) }
{
    let mut sum = 0;
    for monomial in Monomials::new(monomials) {
        sum = cut(sum + monomial_value(monomial, args));
    }
    sum
}

// The degree of a monomial, where the arguments have their degrees.
fn monomial_degree(monomial: Monomial, args: &Measures) -> u64
    ensures { result ≡ dot args.now.numbers (meant monomial).exponents }
{
    let [e0, e1, e2] = monomial.exponents;
    let [first, second, third] = args.numbers;
    e0 as u64 * first + (e1 as u64 * second + e2 as u64 * third)
}

// The degree of a symbol's polynomial, where the arguments have their degrees.
fn symbol_degree(monomials: &[u8], args: &Measures) -> u64
    ensures { result ≡ greatest (dot args.now.numbers) (polynomial_from monomials.now) }
{
    let mut most = 0;
    for monomial in Monomials::new(monomials) {
        most = monomial_degree(monomial, args).max(most);
    }
    most
}

// The value with every variable at 2.
#[derive(Clone, Copy)]
pub(crate) struct AtTwo;

impl Algebra for AtTwo {
    type Value = u64;

    type Arguments = Measures;

    ghost fits = { λ _ interpretation t. ⊤ };

    ghost worth = { λ _ interpretation t n. n ≡ cut_off 2147483648 (measured ValueAtTwo interpretation t) };

    ghost entered = { λ _ interpretation ts i arguments. Filled 2147483648 (measured ValueAtTwo interpretation ts) arguments.numbers i };

    fn variable(&self, _x: u8) -> u64 {
        2
    }

    fn no_arguments(&self) -> Measures {
        Measures::zeros()
    }

    fn enter(&self, arguments: &mut Measures, i: usize, value: u64) {
        arguments.put(i, value);
    }

    fn symbol(&self, monomials: &[u8], arguments: &Measures) -> u64 {
        symbol_value(monomials, arguments)
    }
}

// The degree in a variable.
#[derive(Clone, Copy)]
pub(crate) struct DegreeIn {
    pub(crate) variable: u8,
}

impl Algebra for DegreeIn {
    type Value = u64;

    type Arguments = Measures;

    ghost fits = { λ _ interpretation t. ⊤ };

    ghost worth = { λ s interpretation t n. n ≡ cut_off 2147483648 (measured (Degree s.variable) interpretation t) };

    ghost entered = { λ s interpretation ts i arguments. Filled 2147483648 (measured (Degree s.variable) interpretation ts) arguments.numbers i };

    fn variable(&self, x: u8) -> u64 {
        if x - VARIABLE == self.variable { 1 } else { 0 }
    }

    fn no_arguments(&self) -> Measures {
        Measures::zeros()
    }

    fn enter(&self, arguments: &mut Measures, i: usize, value: u64) {
        arguments.put(i, value);
    }

    fn symbol(&self, monomials: &[u8], arguments: &Measures) -> u64 {
        cut(symbol_degree(monomials, arguments))
    }
}

// The shifted coefficients of a term.
ghost use Rattle.std.specs.Prelude.{◌≡◌, ℕ, ◌+◌, ◌<◌, ◌≤◌, [], ◌∷◌, length, slice_index};
ghost use Rattle.polynomials.specs.Interpretation.{shifted};
ghost use Rattle.polynomials.specs.Polynomial.{Polynomial, coefficient, compose_monomial, compose};
ghost use Rattle.polynomials.specs.Cells.{exponents_at, Holds, MonomialRoom, ComposeRoom, TermRoom};
ghost use Rattle.polynomials.specs.Coding.{polynomial_from};
ghost use Rattle.polynomials.specs.Meant.{meant};
ghost use Rattle.polynomials.specs.Tables.{HoldThree, TablesOf};

use crate::algebra::Algebra;
use crate::monomial::{Monomial, Monomials};
use crate::table::Table;

// Adds a monomial with tables put for its variables.
fn add_monomial(sum: &mut Table, monomial: Monomial, tables: &[Table; 3])
    requires small { (k : ℕ) → k < 256 → slice_index sum.old.cells k ≤ 2147483647 }
    requires room { (p q s : Polynomial) × HoldThree tables.now p q s × MonomialRoom (meant monomial) p q s }
    ensures full { length sum.new.cells ≡ length sum.old.cells }
    ensures each { (p q s : Polynomial) → HoldThree tables.now p q s → MonomialRoom (meant monomial) p q s → (k : ℕ) → k < 256 → slice_index sum.new.cells k ≡ slice_index sum.old.cells k + coefficient (compose_monomial (meant monomial) (p ∷ q ∷ s ∷ [])) (exponents_at k) }
{
    let [e0, e1, e2] = monomial.exponents;
    let mut term = Table::constant(monomial.factor as u64);
    term.times_power(&tables[0], e0);
    term.times_power(&tables[1], e1);
    term.times_power(&tables[2], e2);
    sum.add(&term);
}

// The polynomial of a symbol, with tables put for its arguments.
fn compose_tables(monomials: &[u8], tables: &[Table; 3]) -> Table
    requires { (p q s : Polynomial) × HoldThree tables.now p q s × ComposeRoom (polynomial_from monomials.now) p q s }
    ensures { (p q s : Polynomial) → HoldThree tables.now p q s → ComposeRoom (polynomial_from monomials.now) p q s → Holds result.cells (compose (polynomial_from monomials.now) (p ∷ q ∷ s ∷ [])) }
{
    let mut sum = Table::zero();
    for monomial in Monomials::new(monomials) {
        add_monomial(&mut sum, monomial, tables);
    }
    sum
}

// The shifted coefficients.
#[derive(Clone, Copy)]
pub(crate) struct ShiftedCoefficients;

impl Algebra for ShiftedCoefficients {
    type Value = Table;

    type Arguments = [Table; 3];

    ghost fits = { λ _ interpretation t. TermRoom interpretation t };

    ghost worth = { λ _ interpretation t table. Holds table.cells (shifted interpretation t) };

    ghost entered = { λ _ interpretation ts i tables. TablesOf interpretation ts i tables };

    fn variable(&self, x: u8) -> Table {
        Table::shifted_variable(x)
    }

    fn no_arguments(&self) -> [Table; 3] {
        [Table::zero(); 3]
    }

    fn enter(&self, arguments: &mut [Table; 3], i: usize, value: Table) {
        arguments[i] = value;
    }

    fn symbol(&self, monomials: &[u8], arguments: &[Table; 3]) -> Table {
        compose_tables(monomials, arguments)
    }
}

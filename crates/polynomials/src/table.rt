// Tables of coefficients: polynomials in four variables with exponents up to 3.
ghost use Rattle.std.specs.Prelude.{◌≡◌, ℕ, ◌+◌, ◌*◌, ◌^◌, ◌<◌, ◌≤◌, [], length, slice_index};
ghost use Rattle.polynomials.specs.Polynomial.{Polynomial, constant, degree, product, power};
ghost use Rattle.polynomials.specs.Interpretation.{unit, shifted_variable};
ghost use Rattle.polynomials.specs.Grade.{any_negative, positive_constant};
ghost use Rattle.polynomials.specs.Cells.{exponents_at, Holds, NoCarry, row_at, product_at, PowerRoom};

use terms::prefix::VARIABLE;

// The coefficient at the exponents e0, e1, e2, e3 is in the cell e0 + 4 e1 + 16 e2 + 64 e3.
#[derive(Clone, Copy)]
pub(crate) struct Table {
    cells: [u64; 256],
}

// The least number that is put for a variable.
const LEAST_NUMBER: u64 = 1;

// The cell of a variable's first power.
fn variable_cell(x: u8) -> usize
    requires { (128 ≤ x) × (x < 132) }
    ensures below { (0 < result) × (result < 256) }
    ensures is { exponents_at result ≡ unit x }
{
    4usize.pow((x - VARIABLE) as u32)
}

impl Table {
    // The table of the polynomial 0.
    pub(crate) fn zero() -> Table
        ensures { Holds result.cells [] }
    {
        Table { cells: [0u64; 256] }
    }

    // The table of a constant polynomial.
    pub(crate) fn constant(c: u64) -> Table
        ensures { Holds result.cells (constant c) }
    {
        let mut table = Table::zero();
        table.cells[0] = c;
        table
    }

    // The shifted polynomial of a variable.
    pub(crate) fn shifted_variable(x: u8) -> Table
        requires { (128 ≤ x) × (x < 132) }
        ensures { Holds result.cells (shifted_variable x) }
    {
        let mut table = Table::constant(LEAST_NUMBER);
        table.cells[variable_cell(x)] = 1;
        table
    }

    // Adds another table.
    pub(crate) fn add(&mut self, a: &Table)
        requires { (k : ℕ) → k < 256 → slice_index self.old.cells k + slice_index a.now.cells k < 2 ^ 64 }
        ensures full { length self.new.cells ≡ length self.old.cells }
        ensures each { (k : ℕ) → k < 256 → slice_index self.new.cells k ≡ slice_index self.old.cells k + slice_index a.now.cells k }
    {
        for (k, cell) in self.cells.iter_mut().enumerate() {
            *cell += a.cells[k];
        }
    }

    // Adds the product of two tables that the cell i of the first has a part in.
    fn add_row(&mut self, a: &Table, i: usize, b: &Table)
        requires inside { i < 256 }
        requires some { 1 ≤ slice_index a.now.cells i }
        requires apart { NoCarry a.now.cells b.now.cells }
        requires room { (k : ℕ) → k < 256 → slice_index self.old.cells k + row_at a.now.cells b.now.cells i k < 2 ^ 64 }
        ensures full { length self.new.cells ≡ length self.old.cells }
        ensures each { (k : ℕ) → k < 256 → slice_index self.new.cells k ≡ slice_index self.old.cells k + row_at a.now.cells b.now.cells i k }
    {
        let x = a.cells[i];
        for (j, &y) in b.cells.iter().enumerate() {
            if y != 0 {
                self.cells[i + j] += x * y;
            }
        }
    }

    // Adds the product of two tables.
    fn add_product(&mut self, a: &Table, b: &Table)
        requires apart { NoCarry a.now.cells b.now.cells }
        requires room { (k : ℕ) → k < 256 → slice_index self.old.cells k + product_at a.now.cells b.now.cells k < 2 ^ 64 }
        ensures full { length self.new.cells ≡ length self.old.cells }
        ensures each { (k : ℕ) → k < 256 → slice_index self.new.cells k ≡ slice_index self.old.cells k + product_at a.now.cells b.now.cells k }
    {
        for (i, &x) in a.cells.iter().enumerate() {
            if x != 0 {
                self.add_row(a, i, b);
            }
        }
    }

    // Multiplies by another table.
    fn times(&mut self, a: &Table)
        requires { (p q : Polynomial) × PowerRoom self.old.cells a.now.cells 1 p q }
        ensures { (p q : Polynomial) → PowerRoom self.old.cells a.now.cells 1 p q → Holds self.new.cells (product p q) }
    {
        let mut product = Table::zero();
        product.add_product(self, a);
        *self = product;
    }

    // Multiplies by a power of another table.
    pub(crate) fn times_power(&mut self, base: &Table, exponent: u8)
        requires { (p q : Polynomial) × PowerRoom self.old.cells base.now.cells exponent p q }
        ensures { (p q : Polynomial) → PowerRoom self.old.cells base.now.cells exponent p q → Holds self.new.cells (product p (power q exponent)) }
    {
        for _k in 0..exponent {
            self.times(base);
        }
    }

    // Whether a coefficient is smaller than that of another table.
    pub(crate) fn any_negative(&self, other: &Table) -> bool
        ensures { (p q : Polynomial) → Holds self.now.cells p → Holds other.now.cells q → ((i : ℕ) → i < 4 → degree i q ≤ 3) → result ≡ any_negative p q }
    {
        self.cells
            .iter()
            .zip(other.cells.iter())
            .any(|(coefficient, other)| coefficient < other)
    }

    // Whether the constant is greater than that of another table.
    pub(crate) fn positive_constant(&self, other: &Table) -> bool
        ensures { (p q : Polynomial) → Holds self.now.cells p → Holds other.now.cells q → result ≡ positive_constant p q }
    {
        other.cells[0] < self.cells[0]
    }
}

// The polynomial order of a book.
ghost use Rattle.std.specs.Prelude.{◌≡◌, ℕ, [], Some, MatchResult, refl};
ghost use Rattle.book.specs.Meaning.{signature_of, fields_of};
ghost use Rattle.book.specs.Places.{place_of};
ghost use Rattle.polynomials.specs.Interpretation.{Proper, Over};
ghost use Rattle.polynomials.proofs.Properness.{proper_held};
ghost use Rattle.order_theory.specs.Grade.{polynomial_grade};
ghost use Rattle.order_theory.proofs.PolynomialLaws.{polynomial_order_keeps_the_laws};
ghost use Rattle.orders.specs.FieldQuestions.{Answered};
ghost use Rattle.orders.specs.Polynomials.{monomials_by, interpretation_of, polynomial_questions, monomials_of, Whole};
ghost use Rattle.orders.specs.PolynomialFaults.{number_of, offset_of, PolynomialsRefused};

use crate::book_order::{BookOrder, are_sides};
use crate::figures::figures_of;
use crate::order::{MALFORMED, Order};
use crate::polynomial_fault::PolynomialFault;
use book::book::Book;
use book::places::Places;
use polynomials::grade::grade;
use polynomials::symbols::Symbols;
use terms::prefix::Signature;

// `places` has the place of each code's monomials in the book's bytes.
#[derive(Clone, Copy)]
pub struct Polynomial<'a> {
    pub(crate) book: Book<'a>,
    pub(crate) places: Places,
    ghost whole: { (c p : ℕ) → place_of places c ≡ Some p → Whole book.tables.bytes.now p },
    ghost told: { (c : ℕ) → monomials_of book.tables.bytes.now places c ≡ monomials_by (fields_of book.tables.bytes.now 3) c },
    ghost proper: { ∥ Proper (signature_of book.tables.bytes.now) (interpretation_of book.tables.bytes.now) ∥₁ },
}

impl<'a> BookOrder<'a> for Polynomial<'a> {
    type Fault = PolynomialFault;

    ghost accepted = { λ bs. Answered polynomial_questions bs 3 };

    ghost refused = { PolynomialsRefused };

    ghost made_of = { λ p. p.book };

    ghost grade_of = { λ bs. polynomial_grade (signature_of bs) (interpretation_of bs) };

    // The polynomial order of the empty book.
    fn empty() -> Polynomial<'a>
        ensures { result.book.tables.bytes.now ≡ [] }
    {
        Polynomial {
            book: Book::empty(),
            places: Places::new(),
        }
    }

    // Becomes the polynomial order of the book if each symbol has one polynomial that fits it, else says which question says the first no, and stays as it is.
    fn make(&mut self, book: &Book<'a>) -> Result<(), PolynomialFault>
        ensures answer { MatchResult result
            (λ _. Answered polynomial_questions book.now.tables.bytes.now 3)
            (λ e. PolynomialsRefused book.now.tables.bytes.now (number_of e) (offset_of e)) }
        ensures place { MatchResult result (λ _. self.new.book ≡ book.now) (λ _. self.new ≡ self.old) }
    {
        let places = figures_of::<PolynomialFault>(book)?;
        *self = Polynomial {
            book: *book,
            places,
        };
        Ok(())
    }

    ghost signature_is = { λ p. refl };

    ghost grade_is = { λ p. refl };
}

impl<'a> Signature for Polynomial<'a> {
    ghost arities = { λ p. signature_of p.book.tables.bytes.now };

    fn arity(&self, code: u8) -> Option<u8> {
        self.book.arity(code)
    }
}

impl<'a> Symbols for Polynomial<'a> {
    ghost interpretation = { λ p. interpretation_of p.book.tables.bytes.now };

    ghost proper = { λ p. proper_held (signature_of p.book.tables.bytes.now) (interpretation_of p.book.tables.bytes.now) p.proper };

    // The field begins four bytes before its monomials, and has the length of its value, with the code, in the second and third byte.
    fn monomials(&self, code: u8) -> &[u8] {
        let Some(place) = self.places.get(code) else {
            return &[];
        };
        let bytes = self.book.bytes();
        let length = u16::from_be_bytes([bytes[place - 3], bytes[place - 2]]) as usize;
        &bytes[place..place + (length - 1)]
    }
}

impl<'a> Order for Polynomial<'a> {
    const KIND: u8 = 1;

    ghost kind = { 1 };

    ghost signature = { λ p. signature_of p.book.tables.bytes.now };

    ghost grade = { λ p. polynomial_grade (signature_of p.book.tables.bytes.now) (interpretation_of p.book.tables.bytes.now) };

    ghost over = { λ p. Over (interpretation_of p.book.tables.bytes.now) };

    ghost laws = { λ p. polynomial_order_keeps_the_laws (signature_of p.book.tables.bytes.now) (interpretation_of p.book.tables.bytes.now) (proper_held (signature_of p.book.tables.bytes.now) (interpretation_of p.book.tables.bytes.now) p.proper) };

    fn kind_number() -> u8
        ensures { result ≡ 1 }
    {
        Self::KIND
    }

    fn arity(&self, code: u8) -> Option<u8> {
        self.book.arity(code)
    }

    fn weigh(&self, left: &[u8], right: &[u8]) -> u8 {
        if !are_sides(&self.book, left, right) {
            return MALFORMED;
        }
        grade(self, left, right).unwrap_or(MALFORMED)
    }
}

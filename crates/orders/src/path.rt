// The path order of a book.
ghost use Rattle.std.specs.Prelude.{◌≡◌, ℕ, [], MatchResult, refl};
ghost use Rattle.book.specs.Meaning.{signature_of};
ghost use Rattle.order_theory.specs.Path.{Greater};
ghost use Rattle.orders.specs.Figures.{Figured};
ghost use Rattle.orders.specs.PathFaults.{number_of, offset_of, RanksRefused};
ghost use Rattle.orders.specs.Ranks.{rank_in, rank_of};
ghost use Rattle.order_theory.specs.Grade.{path_grade};
ghost use Rattle.order_theory.proofs.PathLaws.{path_order_keeps_the_laws};

use crate::book_order::{BookOrder, are_sides};
use crate::figures::figures_of;
use crate::order::{MALFORMED, Order};
use crate::path_fault::PathFault;
use book::book::Book;
use book::places::Places;
use terms::prefix::Signature;

// The grades of a pair of sides: the left is greater, or it is not.
const GREATER: u8 = 0;

const NOT_GREATER: u8 = 1;

// `ranks` has the place of each code's rank in the book's bytes.
#[derive(Clone, Copy)]
pub struct Path<'a> {
    pub(crate) book: Book<'a>,
    pub(crate) ranks: Places,
    ghost ranked: { (c : ℕ) → rank_in book.tables.bytes.now ranks c ≡ rank_of book.tables.bytes.now c },
}

impl<'a> BookOrder<'a> for Path<'a> {
    type Fault = PathFault;

    ghost accepted = { λ bs. Figured bs 4 };

    ghost refused = { RanksRefused };

    ghost made_of = { λ p. p.book };

    ghost grade_of = { λ bs. path_grade (signature_of bs) (rank_of bs) };

    // The path order of the empty book.
    fn empty() -> Path<'a>
        ensures { result.book.tables.bytes.now ≡ [] }
    {
        Path {
            book: Book::empty(),
            ranks: Places::new(),
        }
    }

    // Becomes the path order of the book if each symbol has one rank, else says which question says the first no, and stays as it is.
    fn make(&mut self, book: &Book<'a>) -> Result<(), PathFault>
        ensures answer { MatchResult result
            (λ _. Figured book.now.tables.bytes.now 4)
            (λ e. RanksRefused book.now.tables.bytes.now (number_of e) (offset_of e)) }
        ensures place { MatchResult result (λ _. self.new.book ≡ book.now) (λ _. self.new ≡ self.old) }
    {
        let ranks = figures_of::<PathFault>(book)?;
        *self = Path { book: *book, ranks };
        Ok(())
    }

    ghost signature_is = { λ p. refl };

    ghost grade_is = { λ p. refl };
}

impl<'a> Order for Path<'a> {
    const KIND: u8 = 2;

    ghost kind = { 2 };

    ghost signature = { λ p. signature_of p.book.tables.bytes.now };

    ghost grade = { λ p. path_grade (signature_of p.book.tables.bytes.now) (rank_of p.book.tables.bytes.now) };

    ghost over = { λ p. Greater (rank_of p.book.tables.bytes.now) };

    ghost laws = { λ p. path_order_keeps_the_laws (signature_of p.book.tables.bytes.now) (rank_of p.book.tables.bytes.now) };

    fn kind_number() -> u8
        ensures { result ≡ 2 }
    {
        Self::KIND
    }

    fn arity(&self, code: u8) -> Option<u8> {
        self.book.arity(code)
    }

    fn weigh(&self, left: &[u8], right: &[u8]) -> u8 {
        if !are_sides(&self.book, left, right) {
            return MALFORMED;
        }
        if self.greater(left, right) {
            GREATER
        } else {
            NOT_GREATER
        }
    }
}

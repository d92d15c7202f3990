// Orders that a book gives by its fields: by the polynomials or by the ranks of its symbols.
ghost use Rattle.std.specs.Prelude.{◌≡◌, ℕ, List, [], Decides, MatchResult};
ghost use Rattle.terms.specs.Prefix.{Arities};
ghost use Rattle.book.specs.Meaning.{signature_of};
ghost use Rattle.book.specs.Questions.{IsSide};
ghost use Rattle.book.specs.declared.book.Book.{Book};

use crate::order::Order;
use book::book::Book;
use terms::side::Sides;

// Why a book gives no order: the question that says no, and the offset of the field that it says no to.
pub trait FigureFault {
    ghost question: { Self → ℕ };

    ghost field_at: { Self → ℕ };

    // The number of the question.
    fn number(&self) -> u8
        ensures { result ≡ question self.now };

    // The offset of the field.
    fn offset(&self) -> usize
        ensures { result ≡ field_at self.now };
}

// An order that is made from a book.
pub trait BookOrder<'a>: Order + Copy {
    type Fault: FigureFault + Copy;

    // the bytes of a book that gives the order
    ghost accepted: { List ℕ → Type 0 };

    // the bytes of one that does not, with the number of the question that says the first no and the offset of the field
    ghost refused: { List ℕ → ℕ → ℕ → Type 0 };

    // the book that the order is of
    ghost made_of: { Self → Book };

    // the grade that the bytes of a book give
    ghost grade_of: { List ℕ → List ℕ → List ℕ → ℕ };

    // The order of the empty book.
    fn empty() -> Self
        ensures { (made_of result).tables.bytes.now ≡ [] };

    // Becomes the order of the book if the book gives one, else says which question says the first no, and stays as it is.
    fn make(&mut self, book: &Book<'a>) -> Result<(), Self::Fault>
        ensures answer { MatchResult result
            (λ _. accepted book.now.tables.bytes.now)
            (λ e. refused book.now.tables.bytes.now (Self.Fault.question e) (Self.Fault.field_at e)) }
        ensures place { MatchResult result (λ _. made_of self.new ≡ book.now) (λ _. self.new ≡ self.old) };

    ghost signature_is: { (o : Self) → Self.signature o ≡ signature_of (made_of o).tables.bytes.now };

    ghost grade_is: { (o : Self) → Self.grade o ≡ grade_of (made_of o).tables.bytes.now };
}

// Whether both are sides of rules of the book.
pub(crate) fn are_sides(book: &Book, left: &[u8], right: &[u8]) -> bool
    ensures { Decides result (IsSide (signature_of book.now.tables.bytes.now) left.now × IsSide (signature_of book.now.tables.bytes.now) right.now) }
{
    let sides = Sides { left, right };
    sides.fit(book)
}

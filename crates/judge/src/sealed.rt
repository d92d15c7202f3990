// Sealed books.
ghost use Rattle.std.specs.Prelude.{◌≡◌, []};
ghost use Rattle.book.specs.Meaning.{signature_of, rules_of};
ghost use Rattle.judge.specs.Sealed.{Convergent};

use book::book::Book;

// A book whose rules are convergent: every ground term has exactly one normal form.
#[derive(Clone, Copy)]
pub struct Sealed<'a> {
    pub(crate) book: Book<'a>,
    ghost convergent: { ∥ Convergent (signature_of book.tables.bytes.now) (rules_of book.tables.bytes.now) ∥₁ },
}

impl<'a> Sealed<'a> {
    // The empty book, sealed.
    pub fn empty() -> Sealed<'a>
        ensures { result.book.tables.bytes.now ≡ [] }
    {
        Sealed {
            book: Book::empty(),
        }
    }
}

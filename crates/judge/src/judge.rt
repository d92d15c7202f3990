// The judge of a rule book.
ghost use Rattle.std.specs.Prelude.{◌≡◌, [], MatchResult};
ghost use Rattle.rewriting.specs.Relation.{Terminating};
ghost use Rattle.rewriting.specs.Rewrite.{StepOf, Proper};
ghost use Rattle.book.specs.Meaning.{signature_of, rules_of};
ghost use Rattle.judge.specs.Orient.{Falls, OrientRefused};
ghost use Rattle.judge.specs.Calls.{start};
ghost use Rattle.judge.specs.Kept.{Kept};
ghost use Rattle.judge.specs.Pairs.{LastRanged};

use crate::orient::rules_fall;
use crate::orient_fault::OrientFault;
use crate::progress::Progress;
use book::book::Book;
use orders::order::Order;

// A book whose rules are oriented, so that they terminate on every term of its signature, and how far its overlaps have been opened and joined.
#[derive(Clone, Copy)]
pub struct Judge<'a> {
    pub(crate) book: Book<'a>,
    pub(crate) progress: Progress,
    ghost terminating: { ∥ Terminating (StepOf (signature_of book.tables.bytes.now) 8 (rules_of book.tables.bytes.now)) ∥₁ },
    ghost proper: { ∥ Proper (rules_of book.tables.bytes.now) ∥₁ },
    ghost ranged: { ∥ LastRanged progress.last ∥₁ },
    ghost kept: { ∥ Kept (rules_of book.tables.bytes.now) progress ∥₁ },
}

impl<'a> Judge<'a> {
    // The judge of the empty book.
    pub fn empty() -> Judge<'a>
        ensures { (result.book.tables.bytes.now ≡ []) × (result.progress ≡ start) }
    {
        Judge {
            book: Book::empty(),
            progress: Progress::start(),
        }
    }

    // Becomes the judge of the book if its rules fall under the order, else says which question says the first no, and stays as it is.
    pub fn orient<O: Order>(&mut self, book: &Book<'a>, order: &O) -> Result<(), OrientFault>
        ensures answer { MatchResult result
            (λ _. Falls (O.Order.signature order.now) (O.Order.grade order.now) (signature_of book.now.tables.bytes.now) (rules_of book.now.tables.bytes.now))
            (λ e. OrientRefused (O.Order.signature order.now) (O.Order.grade order.now) O.Order.kind (signature_of book.now.tables.bytes.now) (rules_of book.now.tables.bytes.now) e) }
        ensures place { MatchResult result (λ _. (self.new.book ≡ book.now) × (self.new.progress ≡ start)) (λ _. self.new ≡ self.old) }
    {
        rules_fall(book, order)?;
        *self = Judge {
            book: *book,
            progress: Progress::start(),
        };
        Ok(())
    }
}

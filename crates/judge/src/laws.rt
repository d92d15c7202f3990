// The laws over runs of judge calls.
ghost use Rattle.book.specs.Meaning.{signature_of, rules_of};
ghost use Rattle.judge.specs.Runs.{SealingIsSound, SealingIsComplete};

use book::book::Book;
use orders::order::Order;

// Of every book and every order: whatever run of judge calls seals the book, each of its ground terms has exactly one normal form; and if the signatures
// are the same, some run seals it exactly if each rule grades 0 through the fence and each overlap joins within the limits. It does nothing.
pub fn sealing_laws<O: Order>(book: &Book, order: &O)
    ensures sound { SealingIsSound (O.Order.signature order.now) (O.Order.grade order.now) (signature_of book.now.tables.bytes.now) (rules_of book.now.tables.bytes.now) }
    ensures complete { SealingIsComplete (O.Order.signature order.now) (O.Order.grade order.now) (signature_of book.now.tables.bytes.now) (rules_of book.now.tables.bytes.now) }
{}

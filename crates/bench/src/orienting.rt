// The line of a book that is judged by its order. The program does not print it yet.
ghost use Rattle.std.specs.Prelude.{IfOk, string_bytes};
ghost use Rattle.bench.specs.Lines.{line_of};
ghost use Rattle.bench.specs.Orienting.{OrientLine, FiguredLine, BookLine, JudgedLine};

use crate::refusal::{Refusal, no_order};
use crate::verdict::{Verdict, line};
use book::book::Book;
use book::shape::POLYNOMIAL;
use judge::judge::Judge;
use orders::book_order::BookOrder;
use orders::order::Order;
use orders::path::Path;
use orders::polynomial::Polynomial;
use std::alloc::{AllocError, Global};

// What is said of a book under an order.
fn oriented<O: Order>(book: &Book, order: &O) -> Result<Verdict, Refusal>
    ensures { OrientLine book.now.tables.bytes.now (O.Order.signature order.now) (O.Order.grade order.now) O.Order.kind (line_of result) }
{
    let mut judge = Judge::empty();
    judge.orient(book, order)?;
    Ok(Verdict::Oriented {
        rules: book.rule_count(),
    })
}

// What is said of a book under an order that its fields give.
fn figured<'a, O: BookOrder<'a>>(book: &Book<'a>) -> Result<Verdict, Refusal>
    ensures { FiguredLine O.BookOrder.accepted O.BookOrder.refused O.BookOrder.grade_of O.Order.kind book.now.tables.bytes.now (line_of result) }
{
    let mut order = O::empty();
    order.make(book).map_err(no_order)?;
    oriented(book, &order)
}

// What is said of a book: under its polynomials if it has one, else under its ranks.
fn judged_book(book: &Book) -> Result<Verdict, Refusal>
    ensures { BookLine book.now.tables.bytes.now (line_of result) }
{
    let mut polynomials = book.fields(POLYNOMIAL);
    match polynomials.next() {
        Some(_) => figured::<Polynomial>(book),
        None => figured::<Path>(book),
    }
}

// What is said of any bytes.
fn judged(bytes: &[u8]) -> Result<Verdict, Refusal>
    ensures { JudgedLine bytes.now (line_of result) }
{
    let mut book = Book::empty();
    book.read(bytes)?;
    judged_book(&book)
}

// The line for any bytes.
pub fn judged_line(heap: Global, bytes: &[u8]) -> Result<String, AllocError>
    ensures { IfOk result (λ s. JudgedLine bytes.now (string_bytes s)) }
{
    line(heap, judged(bytes))
}

// One step of a rule at a place.
ghost use Rattle.book.specs.Meaning.{signature_of, rules_of};
ghost use Rattle.stepping.specs.Stepping.{RewriteAnswer};

use crate::outcome::RewriteFault;
use crate::subject::Subject;
use book::book::Book;

// Rewrites the term, with the first `variables` variables, by a rule of the book at a place, and writes the new term to the front of the page. Nothing is
// written unless all of it is. A variable of the right side that the left side lacks stays itself.
pub fn rewrite_at(
    book: &Book,
    variables: u8,
    term: &[u8],
    rule: usize,
    place: usize,
    page: &mut [u8],
) -> Result<usize, RewriteFault>
    ensures { RewriteAnswer
        (signature_of book.now.tables.bytes.now)
        variables
        (rules_of book.now.tables.bytes.now)
        term.now
        rule
        place
        page.old
        page.new
        result }
{
    let subject = Subject::new(book, variables, term).ok_or(RewriteFault::NoTerm)?;
    let matched = subject.match_at(rule, place).ok_or(RewriteFault::NoMatch)?;
    matched
        .write_replaced(subject.term, place, page)
        .ok_or(RewriteFault::NoRoom)
}

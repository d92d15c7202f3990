// A rule book over lent bytes.
ghost use Rattle.std.specs.Prelude.{◌≡◌, ◌≤◌, [], length, MatchOption, MatchResult};
ghost use Rattle.book.specs.Faults.{number_of, offset_of};
ghost use Rattle.book.specs.Questions.{Accepted, Refused};
ghost use Rattle.book.specs.Meaning.{signature_of, fields_of, rules_of};
ghost use Rattle.book.specs.Queries.{SidesOf};
ghost use Rattle.book.specs.Tables.{Holds};

use crate::fault::Fault;
use crate::field::Sides;
use crate::fields::Fields;
use crate::reader::Reader;
use crate::tables::Tables;
use terms::prefix::Signature;

// The longest book.
const BOOK_LIMIT: usize = 4096;

// A book that was read, or the empty one. It is known by its bytes: what it answers is what they mean.
#[derive(Clone, Copy)]
pub struct Book<'a> {
    tables: Tables<'a>,
    ghost holds: { ∥ Holds tables ∥₁ },
}

// The tables of the book that the bytes are, or the first question that says no.
fn tables_of<'a>(bytes: &'a [u8]) -> Result<Tables<'a>, Fault>
    ensures { MatchResult result
        (λ t. (t.bytes.now ≡ bytes.now) × Accepted bytes.now × Holds t)
        (λ e. Refused bytes.now (number_of e) (offset_of e)) }
{
    if bytes.len() > BOOK_LIMIT {
        return Err(Fault::TooLong);
    }
    let mut tables = Tables::new(bytes);
    let mut reader = Reader::new(bytes);
    while let Some(field) = reader.next()? {
        tables.enter(&field)?;
    }
    Ok(tables)
}

impl<'a> Book<'a> {
    // The empty book: it has no bytes.
    pub fn empty() -> Book<'a>
        ensures { result.tables.bytes.now ≡ [] }
    {
        Book {
            tables: Tables::new(&[]),
        }
    }

    // Takes the bytes for this book's if they are a book, else says which question says the first no, and stays as it is.
    pub fn read(&mut self, bytes: &'a [u8]) -> Result<(), Fault>
        ensures answer { MatchResult result (λ _. Accepted bytes.now) (λ e. Refused bytes.now (number_of e) (offset_of e)) }
        ensures place { MatchResult result (λ _. self.new.tables.bytes.now ≡ bytes.now) (λ _. self.new ≡ self.old) }
    {
        self.tables = tables_of(bytes)?;
        Ok(())
    }

    // The book's bytes, as they were lent.
    pub fn bytes(&self) -> &'a [u8]
        ensures { result.now ≡ self.now.tables.bytes.now }
    {
        self.tables.bytes
    }

    // How many symbols the book declares.
    pub fn symbol_count(&self) -> usize
        ensures { result ≡ length (fields_of self.now.tables.bytes.now 1) }
    {
        self.tables.symbols
    }

    // How many rules the book has.
    pub fn rule_count(&self) -> usize
        ensures { (result ≡ length (rules_of self.now.tables.bytes.now)) × (result ≤ 32) }
    {
        self.tables.rules.len()
    }

    // The sides of the rule i, as parts of the book's bytes, or None past the last rule.
    pub fn sides(&self, i: usize) -> Option<Sides<'a>>
        ensures { MatchOption result
            (length (rules_of self.now.tables.bytes.now) ≤ i)
            (λ s. SidesOf self.now.tables.bytes.now i s.left.now s.right.now) }
    {
        let place = self.tables.rules.get(i)?;
        let mut reader = Reader::at_place(self.tables.bytes, place);
        let field = reader.next().ok()??;
        field.sides()
    }

    // The fields with a tag, from the first on.
    pub fn fields(&self, tag: u8) -> Fields<'a>
        ensures { (result.reader.bytes.now ≡ self.now.tables.bytes.now) × (result.tag ≡ tag) × (result.reader.at ≡ 0) }
    {
        Fields {
            reader: Reader::new(self.tables.bytes),
            tag,
        }
    }
}

impl<'a> Signature for Book<'a> {
    ghost arities = { λ b. signature_of b.tables.bytes.now };

    fn arity(&self, code: u8) -> Option<u8> {
        self.tables.arity(code)
    }
}

// The places of an order's figures in the bytes of its book, by the codes that they are for.
ghost use Rattle.std.specs.Prelude.{◌≡◌, ℕ, ◌≤◌, true, false, List, [], ◌∷◌, ◌++◌, length, MatchOption, MatchResult};
ghost use Rattle.terms.specs.Prefix.{Arities};
ghost use Rattle.terms.specs.Question.{AllYes, FirstNo};
ghost use Rattle.book.specs.Meaning.{Located, signature_of, fields_of};
ghost use Rattle.book.specs.Format.{shape_of};
ghost use Rattle.book.specs.Queries.{located_as};
ghost use Rattle.orders.specs.Figures.{FirstFor, AllHave};
ghost use Rattle.orders.specs.FieldQuestions.{Asked, AllPass, Answered, FieldRefused, NoFigures, FiguresRefused, FigurePlaces};

use crate::book_order::FigureFault;
use book::book::Book;
use book::field::Field;
use book::places::Places;
use book::shape::SYMBOL;
use terms::prefix::Signature;

// Figures stand so many bytes behind the beginning of their field: behind the header and the code.
const FIGURES_AT: usize = 4;

// What is asked of the fields that give an order its figures: a fault says which question says no.
pub(crate) trait FieldQuestions: FigureFault + Copy {
    // The tag of the fields.
    const TAG: u8;

    ghost TAG: { ℕ };

    // the questions of a field; the first is whether it is the first for its code, which is declared
    ghost asked: { Asked };

    // the number of the question to the symbols
    ghost last: { ℕ };

    // The field is not the first for its code, or the code is not declared.
    fn not_first(at: usize) -> Self
        ensures number { (sig : Arities) (before : List Located) (l : Located) → (FirstFor sig before l → ⊥) → FirstNo (asked sig before l) (Self.question result) }
        ensures offset { Self.field_at result ≡ at };

    // Asks the other questions of the field.
    fn check(book: &Book, field: &Field) -> Result<(), Self>
        requires { 1 ≤ length field.now.value.now }
        ensures { (before : List Located)
            → FirstFor (signature_of book.now.tables.bytes.now) before (located_as field.now)
            → MatchResult result
            (λ _. AllYes (asked (signature_of book.now.tables.bytes.now) before (located_as field.now)))
            (λ e. FirstNo (asked (signature_of book.now.tables.bytes.now) before (located_as field.now)) (Self.question e)
            × (Self.field_at e ≡ field.now.offset)) };

    // There is no field for the symbol.
    fn no_figures(at: usize) -> Self
        ensures number { Self.question result ≡ last }
        ensures offset { Self.field_at result ≡ at };

    // a field has a code
    ghost coded: { MatchOption (shape_of TAG) ⊥ (λ s. 1 ≤ s.least) };
}

// Enters the place of the field's figures if the code is declared and has none yet; says whether it is so.
fn enter_figures(book: &Book, field: &Field, places: &mut Places) -> bool
    requires some { 1 ≤ length field.now.value.now }
    requires inside { field.now.offset ≤ 4096 }
    ensures { (before : List Located)
        → FigurePlaces places.old before
        → (result ≡ true → FirstFor (signature_of book.now.tables.bytes.now) before (located_as field.now)
        × FigurePlaces places.new (before ++ located_as field.now ∷ []))
        × (result ≡ false → FirstFor (signature_of book.now.tables.bytes.now) before (located_as field.now) → ⊥) }
{
    let code = field.value[0];
    if book.arity(code).is_none() {
        return false;
    }
    places.enter(code, (field.offset + FIGURES_AT) as u16)
}

// The places of the figures, or the first fault of a field.
fn places_of<F: FieldQuestions>(book: &Book) -> Result<Places, F>
    ensures { MatchResult result
        (λ places. AllPass F.asked (signature_of book.now.tables.bytes.now) [] (fields_of book.now.tables.bytes.now F.TAG)
        × FigurePlaces places (fields_of book.now.tables.bytes.now F.TAG))
        (λ e. FieldRefused F.asked book.now.tables.bytes.now F.TAG (F.question e) (F.field_at e)) }
{
    let mut places = Places::new();
    for field in book.fields(F::TAG) {
        if !enter_figures(book, &field, &mut places) {
            return Err(F::not_first(field.offset));
        }
        F::check(book, &field)?;
    }
    Ok(places)
}

// The offset of the first symbol's field whose code has no place, or None if each has one.
fn symbol_without_figures(book: &Book, places: &Places) -> Option<usize>
    ensures { (tag : ℕ)
        → FigurePlaces places.now (fields_of book.now.tables.bytes.now tag)
        → MatchOption result
        (AllHave (fields_of book.now.tables.bytes.now tag) (fields_of book.now.tables.bytes.now 1))
        (λ at. NoFigures book.now.tables.bytes.now tag at) }
{
    for symbol in book.fields(SYMBOL) {
        if places.get(symbol.value[0]).is_none() {
            return Some(symbol.offset);
        }
    }
    None
}

// The places of the figures if no question says no, else the first fault.
pub(crate) fn figures_of<F: FieldQuestions>(book: &Book) -> Result<Places, F>
    ensures { MatchResult result
        (λ places. Answered F.asked book.now.tables.bytes.now F.TAG × FigurePlaces places (fields_of book.now.tables.bytes.now F.TAG))
        (λ e. FiguresRefused F.asked book.now.tables.bytes.now F.TAG F.last (F.question e) (F.field_at e)) }
{
    let places = places_of(book)?;
    match symbol_without_figures(book, &places) {
        Some(at) => Err(F::no_figures(at)),
        None => Ok(places),
    }
}

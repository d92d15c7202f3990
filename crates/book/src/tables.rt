// What is kept of a book beside its lent bytes, and how one field more is asked about and entered.
ghost use Rattle.std.specs.Prelude.{◌≡◌, ◌+◌, ◌<◌, ◌≤◌, List, [], ◌∷◌, ◌++◌, length, Some, Decides, MatchResult};
ghost use Rattle.terms.specs.Question.{AllYes, FirstNo};
ghost use Rattle.book.specs.Format.{BookField};
ghost use Rattle.book.specs.Tags.{tag_number};
ghost use Rattle.book.specs.Faults.{number_of, offset_of};
ghost use Rattle.book.specs.Questions.{TagKnown, LengthFits, SymbolFits, SidesFit, RoomForRule, field_questions};
ghost use Rattle.book.specs.Meaning.{signature};
ghost use Rattle.book.specs.Views.{meant};

use crate::fault::Fault;
use crate::field::Field;
use crate::offsets::Offsets;
use crate::places::Places;
use crate::reader::HEADER;
use crate::shape::{Shape, Tag};
use terms::prefix::Signature;

// The most arguments of a symbol.
const ARITY_LIMIT: u8 = 3;

// A symbol's arity stands so many bytes behind the beginning of its field.
const ARITY_AT: usize = HEADER + 1;

// `arities` has the place of each code's arity in the bytes, and `rules` the offset of each rule's field.
#[derive(Clone, Copy)]
pub(crate) struct Tables<'a> {
    pub(crate) bytes: &'a [u8],
    pub(crate) arities: Places,
    pub(crate) symbols: usize,
    pub(crate) rules: Offsets,
    ghost short: { length bytes.now ≤ 4096 },
}

impl<'a> Signature for Tables<'a> {
    ghost use Rattle.book.specs.Tables.{kept_signature};

    ghost arities = { kept_signature };

    // What is kept for a code without a place is behind the last byte, so that it need not be told apart here: each byte of each term is asked about.
    fn arity(&self, code: u8) -> Option<u8> {
        let place = self.arities.kept(code)?;
        self.bytes.get(place).copied()
    }
}

// The field's tag, if it is known and the value's length fits it.
fn known_tag(field: &Field) -> Result<Tag, Fault>
    ensures { MatchResult result
        (λ tag. (tag_number tag ≡ field.now.tag) × TagKnown (meant field.now) × LengthFits (meant field.now))
        (λ e. (offset_of e ≡ Some field.now.offset) × ((before : List BookField) → FirstNo (field_questions before (meant field.now)) (number_of e))) }
{
    let Ok(tag) = Tag::try_from(field.tag) else {
        return Err(Fault::UnknownTag(field.offset));
    };
    if !Shape::of(tag).fits(field.value.len()) {
        return Err(Fault::WrongLength(field.offset));
    }
    Ok(tag)
}

impl<'a> Tables<'a> {
    ghost use Rattle.book.specs.Tables.{RuleRefused, StandsNext, TablesOf, kept_signature};

    // The tables of no fields.
    pub(crate) fn new(bytes: &'a [u8]) -> Tables<'a>
        requires { length bytes.now ≤ 4096 }
        ensures bytes { result.bytes.now ≡ bytes.now }
        ensures tabled { TablesOf result [] }
    {
        Tables {
            bytes,
            arities: Places::new(),
            symbols: 0,
            rules: Offsets::new(),
        }
    }

    // Whether the field has two sides of a rule.
    fn has_sides(&self, field: &Field<'a>) -> bool
        ensures { Decides result (SidesFit (kept_signature self.now) (meant field.now)) }
    {
        match field.sides() {
            Some(sides) => sides.fit(self),
            None => false,
        }
    }

    // Asks whether the symbol fits behind the fields so far, and enters it.
    fn enter_symbol(&mut self, field: &Field<'a>) -> Result<(), Fault>
        requires two_bytes { length field.now.value.now ≡ 2 }
        requires inside { field.now.offset ≤ 4096 }
        requires few { self.old.symbols ≤ 4096 }
        ensures bytes { self.new.bytes ≡ self.old.bytes }
        ensures answer { (before : List BookField)
            → StandsNext self.old before field.now
            → field.now.tag ≡ 1
            → MatchResult result
            (λ _. SymbolFits before (meant field.now)
            × TablesOf self.new (before ++ meant field.now ∷ []))
            (λ e. (SymbolFits before (meant field.now) → ⊥) × (number_of e ≡ 5) × (offset_of e ≡ Some field.now.offset)) }
    {
        let code = field.value[0];
        let arity = field.value[1];
        let place = (field.offset + ARITY_AT) as u16;
        if code == 0 || arity > ARITY_LIMIT || !self.arities.enter(code, place) {
            return Err(Fault::BadSymbol(field.offset));
        }
        self.symbols += 1;
        Ok(())
    }

    // Asks whether the rule fits behind the fields so far, and enters it.
    fn enter_rule(&mut self, field: &Field<'a>) -> Result<(), Fault>
        requires inside { field.now.offset ≤ 4096 }
        ensures bytes { self.new.bytes ≡ self.old.bytes }
        ensures answer { (before : List BookField)
            → StandsNext self.old before field.now
            → field.now.tag ≡ 2
            → MatchResult result
            (λ _. SidesFit (signature before) (meant field.now)
            × RoomForRule before
            × TablesOf self.new (before ++ meant field.now ∷ []))
            (λ e. (offset_of e ≡ Some field.now.offset)
            × RuleRefused before (meant field.now) (number_of e)) }
    {
        if !self.has_sides(field) {
            return Err(Fault::BadRule(field.offset));
        }
        self.rules
            .push(field.offset as u16)
            .ok_or(Fault::TooManyRules(field.offset))
    }

    // Asks the questions of one field more, and enters it if none says no.
    pub(crate) fn enter(&mut self, field: &Field<'a>) -> Result<(), Fault>
        requires inside { field.now.offset ≤ 4096 }
        requires few { self.old.symbols ≤ 4096 }
        ensures bytes { self.new.bytes ≡ self.old.bytes }
        ensures answer { (before : List BookField)
            → StandsNext self.old before field.now
            → MatchResult result
            (λ _. AllYes (field_questions before (meant field.now)) × TablesOf self.new (before ++ meant field.now ∷ []))
            (λ e. (offset_of e ≡ Some field.now.offset) × FirstNo (field_questions before (meant field.now)) (number_of e)) }
    {
        match known_tag(field)? {
            Tag::Symbol => self.enter_symbol(field),
            Tag::Rule => self.enter_rule(field),
            Tag::Polynomial | Tag::Rank | Tag::Joining => Ok(()),
        }
    }
}

// The term that the rules of a book are tried on, and where one of them matches.
ghost use Rattle.std.specs.Prelude.{MatchOption};
ghost use Rattle.terms.specs.Prefix.{Reads, IsTerm, term_of};
ghost use Rattle.terms.proofs.Sorts.{reads_prop};
ghost use Rattle.book.specs.Meaning.{signature_of};

use crate::matching::{Match, matches};
use book::book::Book;
use terms::prefix::is_term;

// A term of a book's signature, with the first `variables` variables.
#[derive(Clone, Copy)]
pub(crate) struct Subject<'t> {
    pub(crate) book: &'t Book<'t>,
    variables: u8,
    pub(crate) term: &'t [u8],
    ghost reads: { Reads (signature_of book.now.tables.bytes.now) variables term.now (term_of (signature_of book.now.tables.bytes.now) term.now) } by { reads_prop _ _ _ _ },
}

// A match of a rule's left side, and the right side.
#[derive(Clone, Copy)]
pub(crate) struct RuleMatch<'t> {
    pub(crate) found: Match<'t>,
    pub(crate) right: &'t [u8],
}

impl<'t> Subject<'t> {
    ghost use Rattle.stepping.specs.Stepping.{MatchedBy};
    ghost use Rattle.stepping.specs.Subjects.{rules_on, term_on, IsSubject, RuleMatches};

    // The bytes as a subject, or None if they are no term.
    pub(crate) fn new(book: &'t Book<'t>, variables: u8, term: &'t [u8]) -> Option<Subject<'t>>
        ensures { MatchOption result
            (IsTerm (signature_of book.now.tables.bytes.now) variables term.now → ⊥)
            (IsSubject book.now.tables.bytes.now variables term.now) }
    {
        if !is_term(book, variables, term) {
            return None;
        }
        Some(Subject {
            book,
            variables,
            term,
        })
    }

    // Matches a rule at a place; None if it does not match there, or there is no such rule or place.
    #[inline(always)]
    pub(crate) fn match_at(&self, rule: usize, place: usize) -> Option<RuleMatch<'t>>
        ensures { MatchOption result
            (MatchedBy (rules_on self.now) rule (term_on self.now) place → ⊥)
            (RuleMatches self.now rule place) }
    {
        if place >= self.term.len() {
            return None;
        }
        let sides = self.book.sides(rule)?;
        let found = matches(self.book, self.variables, sides.left, &self.term[place..])?;
        Some(RuleMatch {
            found,
            right: sides.right,
        })
    }
}

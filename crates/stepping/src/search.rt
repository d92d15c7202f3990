// The innermost step: at the least place where a rule matches and none matches further inside, by the lowest rule that matches there.
ghost use Rattle.book.specs.Meaning.{signature_of, rules_of};
ghost use Rattle.stepping.specs.Stepping.{InnermostAnswer};

use crate::outcome::{NotATerm, Redex};
use crate::subject::Subject;
use book::book::Book;

// A part that a rule matches, with its length.
#[derive(Clone, Copy)]
pub(crate) struct Candidate {
    redex: Redex,
    len: usize,
}

impl<'t> Subject<'t> {
    ghost use Rattle.std.specs.Prelude.{◌<◌, length};
    ghost use Rattle.stepping.specs.Subjects.{rules_on, term_on};
    ghost use Rattle.stepping.specs.Redexes.{FoundThere, FoundInnermost};

    // The part at a place with the lowest rule that matches it, or None if none does.
    fn redex_at(&self, place: usize) -> Option<Candidate>
        requires { place < length self.now.term.now }
        ensures { FoundThere (rules_on self.now) (term_on self.now) place result }
    {
        for rule in 0..self.book.rule_count() {
            if let Some(matched) = self.match_at(rule, place) {
                return Some(Candidate {
                    redex: Redex { place, rule },
                    len: matched.found.len,
                });
            }
        }
        None
    }

    // The innermost part that a rule matches, the first of several, or None if no rule matches anywhere.
    fn innermost_redex(&self) -> Option<Redex>
        ensures { FoundInnermost (rules_on self.now) (term_on self.now) result }
    {
        let mut found: Option<Candidate> = None;
        for place in 0..self.term.len() {
            if let Some(candidate) = found {
                // its part has ended, and no rule matched inside
                if candidate.len <= place - candidate.redex.place {
                    return Some(candidate.redex);
                }
            }
            found = self.redex_at(place).or(found);
        }
        found.map(|candidate| candidate.redex)
    }
}

// The place and the rule of the innermost step of the term with the first `variables` variables, or None if it is a normal form.
pub fn innermost(book: &Book, variables: u8, term: &[u8]) -> Result<Option<Redex>, NotATerm>
    ensures { InnermostAnswer
        (signature_of book.now.tables.bytes.now)
        variables
        (rules_of book.now.tables.bytes.now)
        term.now
        result }
{
    let subject = Subject::new(book, variables, term).ok_or(NotATerm)?;
    Ok(subject.innermost_redex())
}

// Matching: whether a term is an instance of a left side, and which parts of its bytes the variables stand for.
ghost use Rattle.std.specs.Prelude.{◌≡◌, ◌<◌};
ghost use Rattle.terms.specs.Term.{Term};
ghost use Rattle.terms.specs.Prefix.{IsTerm, Reads, Begins};
ghost use Rattle.book.specs.Meaning.{signature_of};
ghost use Rattle.stepping.specs.Bindings.{bound_to, Binds, MatchAnswer};

use book::book::Book;
use terms::prefix::{VARIABLE, first_term_length};
use terms::side::RULE_VARIABLES;

// A rule's variables are so many.
const BINDINGS: usize = RULE_VARIABLES as usize;

// What the four variables of rules stand for: each a part of the term that is matched, or nothing so far.
#[derive(Clone, Copy)]
pub(crate) struct Substitution<'a> {
    parts: [Option<&'a [u8]>; BINDINGS],
}

impl<'a> Substitution<'a> {
    // The part that a byte of a rule stands for: none if it is a symbol's code, or a variable that stands for nothing.
    pub(crate) fn part(&self, byte: u8) -> Option<&'a [u8]>
        ensures { result ≡ bound_to self.now.parts byte }
    {
        let number = byte.checked_sub(VARIABLE)?;
        *self.parts.get(number as usize)?
    }

    // Lets the variable with the number i stand for a part, or None if it stands for other bytes already.
    fn bind(mut self, i: usize, part: &'a [u8]) -> Option<Substitution<'a>>
        requires { i < 4 }
        ensures { Binds self.entry.parts i part.entry result }
    {
        match self.parts[i] {
            Some(earlier) => {
                if earlier != part {
                    return None;
                }
            }
            None => self.parts[i] = Some(part),
        }
        Some(self)
    }
}

// A match: what the variables stand for, and the length of the whole.
#[derive(Clone, Copy)]
pub(crate) struct Match<'a> {
    pub(crate) substitution: Substitution<'a>,
    pub(crate) len: usize,
}

// Matches the left side of a rule with the term that the bytes begin with; None if that is no instance of it.
#[inline(always)]
pub(crate) fn matches<'a>(
    book: &Book,
    variables: u8,
    left: &[u8],
    bytes: &'a [u8],
) -> Option<Match<'a>>
    requires term { IsTerm (signature_of book.now.tables.bytes.now) 4 left.now }
    requires begins { (t : Term) × Begins (signature_of book.now.tables.bytes.now) variables bytes.now t }
    ensures { (l t : Term)
        → Reads (signature_of book.now.tables.bytes.now) 4 left.now l
        → Begins (signature_of book.now.tables.bytes.now) variables bytes.now t
        → MatchAnswer (signature_of book.now.tables.bytes.now) variables l t result }
{
    let mut substitution = Substitution {
        parts: [None; BINDINGS],
    };
    let mut j = 0;
    for byte in left {
        let byte = *byte;
        if byte < VARIABLE {
            if bytes[j] != byte {
                return None;
            }
            j += 1;
        } else {
            let rest = &bytes[j..];
            let len = first_term_length(book, variables, rest)?;
            substitution = substitution.bind((byte - VARIABLE) as usize, &rest[..len])?;
            j += len;
        }
    }
    Some(Match {
        substitution,
        len: j,
    })
}

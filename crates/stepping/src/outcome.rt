// What the calls answer.

// Why a term is not rewritten at a place: the bytes are no term, the rule does not match there, or the new term has no room on the page.
#[derive(Clone, Copy, PartialEq, Eq, Debug)]
pub enum RewriteFault {
    NoTerm,
    NoMatch,
    NoRoom,
}

// The bytes are no term.
#[derive(Clone, Copy, PartialEq, Eq, Debug)]
pub struct NotATerm;

// A place of a term where a rule matches, and the rule.
#[derive(Clone, Copy, PartialEq, Eq, Debug)]
pub struct Redex {
    pub place: usize,
    pub rule: usize,
}

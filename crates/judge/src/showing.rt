// Told steps are carried out on the sides of an overlap.
ghost use Rattle.std.specs.Prelude.{◌≡◌, MatchResult};
ghost use Rattle.std.specs.List.{concat};
ghost use Rattle.terms.specs.Term.{Term};
ghost use Rattle.terms.specs.Prefix.{IsTerm, Reads};
ghost use Rattle.unification.specs.Written.{bytes_of};
ghost use Rattle.book.specs.Meaning.{signature_of, rules_of};
ghost use Rattle.judge.specs.Calls.{ListsFail};
ghost use Rattle.judge.specs.Showing.{ToldStep, EndsAt, StepFails, OneEnd, told_fault_of};

use crate::fault::{ShowFault, Side};
use crate::joining::Joining;
use book::book::Book;
use stepping::outcome::RewriteFault;
use stepping::step::rewrite_at;
use terms::side::RULE_VARIABLES;
use unification::critical::CriticalPair;
use unification::written::Written;

// The shortest page.
pub(crate) const PAGE: usize = 1024;

// A term has at most so many bytes.
pub(crate) const TERM: usize = 255;

// The sides of an overlap have at most the variables of two rules.
const PEAK_VARIABLES: u8 = 2 * RULE_VARIABLES;

// The term rewritten by the rule at the place.
fn told_step(
    book: &Book,
    rule: u8,
    place: u8,
    term: &Written,
    page: &mut [u8; PAGE],
) -> Result<Written, RewriteFault>
    requires { IsTerm (signature_of book.now.tables.bytes.now) 8 (bytes_of term.now) }
    ensures { (t : Term)
        → Reads (signature_of book.now.tables.bytes.now) 8 (bytes_of term.now) t
        → ToldStep (signature_of book.now.tables.bytes.now) (rules_of book.now.tables.bytes.now) rule place t result }
{
    // no more room than the limit, so that a longer result is refused
    let room = &mut page[..TERM];
    let n = rewrite_at(
        book,
        PEAK_VARIABLES,
        term.as_slice(),
        rule as usize,
        place as usize,
        room,
    )?;
    Written::of(&page[..n]).ok_or(RewriteFault::NoRoom)
}

// The fault of a side whose list fails at a step. A term is always there, so if it is not rewritten and there is room, the rule does not match.
fn told_fault(fault: RewriteFault, side: Side, step: usize) -> ShowFault
    ensures { result ≡ told_fault_of fault side step }
{
    match fault {
        RewriteFault::NoRoom => ShowFault::TooLong { side, step },
        RewriteFault::NoMatch | RewriteFault::NoTerm => ShowFault::NoMatch { side, step },
    }
}

// The term to which the steps lead from the first; else the step of the side that fails.
fn run_steps(
    book: &Book,
    side: Side,
    steps: &[[u8; 2]],
    first: &Written,
    page: &mut [u8; PAGE],
) -> Result<Written, ShowFault>
    requires { IsTerm (signature_of book.now.tables.bytes.now) 8 (bytes_of first.now) }
    ensures { (t : Term)
        → Reads (signature_of book.now.tables.bytes.now) 8 (bytes_of first.now) t
        → MatchResult result
        (λ w. EndsAt (signature_of book.now.tables.bytes.now) (rules_of book.now.tables.bytes.now) (concat steps.now) t w)
        (λ e. StepFails (rules_of book.now.tables.bytes.now) (concat steps.now) t side e) }
{
    let mut term = *first;
    for (step, &[rule, place]) in steps.iter().enumerate() {
        let answer = told_step(book, rule, place, &term, page);
        term = answer.map_err(|fault| told_fault(fault, side, step))?;
    }
    Ok(term)
}

// Carries out the outer steps on the outer side and the inner steps on the inner side: whether both lead to one term, else the first that fails.
pub(crate) fn check_joining(
    book: &Book,
    pair: &CriticalPair,
    joining: &Joining,
    page: &mut [u8; PAGE],
) -> Result<(), ShowFault>
    requires outer { IsTerm (signature_of book.now.tables.bytes.now) 8 (bytes_of pair.now.outer) }
    requires inner { IsTerm (signature_of book.now.tables.bytes.now) 8 (bytes_of pair.now.inner) }
    ensures { (a b : Term)
        → Reads (signature_of book.now.tables.bytes.now) 8 (bytes_of pair.now.outer) a
        → Reads (signature_of book.now.tables.bytes.now) 8 (bytes_of pair.now.inner) b
        → MatchResult result
        (λ _. OneEnd (rules_of book.now.tables.bytes.now) (concat joining.now.outer.now) (concat joining.now.inner.now) a b)
        (λ e. ListsFail (rules_of book.now.tables.bytes.now) (concat joining.now.outer.now) (concat joining.now.inner.now) a b e) }
{
    let outer_end = run_steps(book, Side::Outer, joining.outer, &pair.outer, page)?;
    let inner_end = run_steps(book, Side::Inner, joining.inner, &pair.inner, page)?;
    if outer_end.as_slice() == inner_end.as_slice() {
        Ok(())
    } else {
        Err(ShowFault::EndsDiffer)
    }
}

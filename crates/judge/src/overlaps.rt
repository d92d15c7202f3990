// The overlaps of a book's rules, one after the other.
ghost use Rattle.std.specs.Prelude.{◌≡◌, ◌≤◌, ◌↔◌, Decides, MatchOption};
ghost use Rattle.book.specs.Meaning.{signature_of, rules_of};
ghost use Rattle.judge.specs.declared.triple.Triple.{Triple};
ghost use Rattle.judge.specs.Overlaps.{IsOverlap, Behind, NextOverlap, NoneLeft};
ghost use Rattle.judge.specs.Pairs.{PairAnswer, triple_number, Ranged, LastRanged};

use crate::triple::{TRIPLES, Triple};
use book::book::Book;
use unification::critical::{CriticalPair, NoPair, critical_pair};

// The peak and the sides of the overlap that the triple names, or why it names none or one that is too long.
pub(crate) fn pair_of(book: &Book, t: &Triple) -> Result<CriticalPair, NoPair>
    ensures { PairAnswer (signature_of book.now.tables.bytes.now) (rules_of book.now.tables.bytes.now) t.now result }
{
    // at the root a pair of rules counts once, and a rule not with itself
    if t.p == 0 && t.i >= t.j {
        return Err(NoPair::Apart);
    }
    let first = book.sides(t.i).ok_or(NoPair::Apart)?;
    let second = book.sides(t.j).ok_or(NoPair::Apart)?;
    critical_pair(book, first, t.p, second)
}

// Whether the triple names an overlap.
fn is_overlap(book: &Book, t: &Triple) -> bool
    ensures { Decides result (IsOverlap (rules_of book.now.tables.bytes.now) t.now) }
{
    matches!(pair_of(book, t), Ok(_) | Err(NoPair::TooLong))
}

// The number of the first triple behind the one opened last.
fn first_behind(last: &Option<Triple>) -> usize
    requires { LastRanged last.now }
    ensures few { result ≤ 32768 }
    ensures first { (u : Triple) → Ranged u → (Behind last.now u ↔ (result ≤ triple_number u)) }
{
    match last {
        None => 0,
        Some(t) => t.number() + 1,
    }
}

// The next overlap behind the one opened last, or None if none is left.
pub(crate) fn next_overlap(book: &Book, last: &Option<Triple>) -> Option<Triple>
    requires { LastRanged last.now }
    ensures { MatchOption result
        (NoneLeft (rules_of book.now.tables.bytes.now) last.now)
        (NextOverlap (rules_of book.now.tables.bytes.now) last.now) }
{
    for number in first_behind(last)..TRIPLES * book.rule_count() {
        let t = Triple::numbered(number);
        if is_overlap(book, &t) {
            return Some(t);
        }
    }
    None
}

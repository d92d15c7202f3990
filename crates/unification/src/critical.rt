// The critical pair of two rules at a place of the first left side.
ghost use Rattle.std.specs.Prelude.{◌≡◌, ◌<◌, ◌≤◌, length, Decides, MatchOption};
ghost use Rattle.terms.specs.Term.{Rule};
ghost use Rattle.unification.specs.Classes.{Unified};
ghost use Rattle.unification.specs.Laying.{Sides};
ghost use Rattle.unification.specs.Written.{bytes_of};
ghost use Rattle.unification.specs.Asked.{Asked};
ghost use Rattle.unification.specs.Critical.{IsTooLong, IsWritten, OfRules, Answer};

use crate::forest::{Forest, Unifier};
use crate::laying::{LAID_LIMIT, LaidSides, lay_sides};
use crate::numbering::{appearances, renumbered};
use crate::standing::ends;
use crate::written::Written;
use terms::prefix::{Signature, VARIABLE};
use terms::side;

// The peak, and the two terms that it is rewritten to: by the first rule at the root, and by the second at the place.
#[derive(Clone, Copy)]
pub struct CriticalPair {
    pub peak: Written,
    pub outer: Written,
    pub inner: Written,
}

// Why there is no critical pair.
#[derive(Clone, Copy, PartialEq, Eq, Debug)]
pub enum NoPair {
    // the question is about no rules, or no place of a symbol
    Malformed,
    // the left sides do not overlap at the place
    Apart,
    // a term of the critical pair has more than 255 symbols
    TooLong,
}

// The critical pair under the unifier, or None if one of its terms has more than 255 symbols.
fn write_pair<S: Signature>(
    unifier: &Unifier<S>,
    place: usize,
    sides: &LaidSides,
) -> Option<CriticalPair>
    requires unified { Unified (S.Signature.arities unifier.now.forest.now.signature.now) unifier.now.forest.now.codes.now unifier.now.rep.now unifier.now.rank.now place sides.now.second }
    requires inside { place < sides.now.second }
    requires sides { (a : Rule) × (b : Rule) × Sides (S.Signature.arities unifier.now.forest.now.signature.now) unifier.now.forest.now.codes.now sides.now.second sides.now.right sides.now.last a b }
    ensures { (a b : Rule) → Sides (S.Signature.arities unifier.now.forest.now.signature.now) unifier.now.forest.now.codes.now sides.now.second sides.now.right sides.now.last a b → MatchOption result (IsTooLong a b place) (IsWritten (S.Signature.arities unifier.now.forest.now.signature.now) a b place) }
{
    let peak = unifier.instance(0, sides.second)?;
    let outer = unifier.instance(sides.right, sides.last)?;
    let inner = unifier.replaced(place, sides.last, sides.second)?;
    let variables = appearances(peak.as_slice());
    let order = variables.as_slice();
    Some(CriticalPair {
        peak: renumbered(order, &peak),
        outer: renumbered(order, &outer),
        inner: renumbered(order, &inner),
    })
}

// Decides whether the sides overlap, and writes the critical pair if they do.
fn overlap<S: Signature>(
    signature: &S,
    place: usize,
    sides: &LaidSides,
) -> Result<CriticalPair, NoPair>
    requires inside { place < sides.now.second }
    requires sides { (a : Rule) × (b : Rule) × Sides (S.Signature.arities signature.now) (bytes_of sides.now.codes) sides.now.second sides.now.right sides.now.last a b }
    ensures { (a b : Rule) → Sides (S.Signature.arities signature.now) (bytes_of sides.now.codes) sides.now.second sides.now.right sides.now.last a b → OfRules (S.Signature.arities signature.now) a b place result }
{
    let codes = sides.codes.as_slice();
    let (mut end, mut rep, mut rank) = ([0u8; LAID_LIMIT], [0u8; LAID_LIMIT], [0u8; LAID_LIMIT]);
    let end = &mut end[..codes.len()];
    let rep = &mut rep[..codes.len()];
    let rank = &mut rank[..codes.len()];
    ends(signature, codes, end);
    let forest = Forest {
        signature,
        codes,
        end,
    };
    let unifier = forest
        .unify(place, sides.second, rep, rank)
        .ok_or(NoPair::Apart)?;
    write_pair(&unifier, place, sides).ok_or(NoPair::TooLong)
}

// Whether the bytes are two rules, and a symbol stands at the place of the first left side.
fn is_asked<S: Signature>(
    signature: &S,
    first: side::Sides,
    place: usize,
    second: side::Sides,
) -> bool
    ensures { Decides result (Asked (S.Signature.arities signature.now) first.entry.left.now first.entry.right.now place second.entry.left.now second.entry.right.now) }
{
    first.fit(signature)
        && second.fit(signature)
        && first.left.get(place).is_some_and(|code| *code < VARIABLE)
}

// The critical pair of two rules at a place of the first left side, or why there is none: the left sides do not overlap there, a term of the pair
// has more than 255 symbols, or the bytes are no rules with a symbol at the place.
pub fn critical_pair<S: Signature>(
    signature: &S,
    first: side::Sides,
    place: usize,
    second: side::Sides,
) -> Result<CriticalPair, NoPair>
    ensures { Answer (S.Signature.arities signature.now) first.entry.left.now first.entry.right.now place second.entry.left.now second.entry.right.now result }
{
    if !is_asked(signature, first, place, second) {
        return Err(NoPair::Malformed);
    }
    overlap(signature, place, &lay_sides(signature, first, second))
}

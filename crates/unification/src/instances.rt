// Instances of the sides of two rules under the unifier, of at most 255 bytes.
ghost use Rattle.std.specs.Prelude.{◌≡◌, ◌<◌, ◌≤◌, length, MatchOption, slice_index};
ghost use Rattle.terms.specs.Term.{Subst};
ghost use Rattle.unification.specs.Classes.{Solves};
ghost use Rattle.unification.specs.Writing.{written, spliced};
ghost use Rattle.unification.specs.Written.{bytes_of};

use crate::forest::Unifier;
use crate::written::Written;
use terms::prefix::Signature;

impl<'a, S: Signature> Unifier<'a, S> {
    // The codes from the offset `from` up to `to` under the bindings, or None if they are more than 255.
    pub(crate) fn instance(&self, from: usize, to: usize) -> Option<Written>
        requires order { from ≤ to }
        requires inside { to ≤ length self.now.forest.now.codes.now }
        ensures { MatchOption result
            ((μ : Subst) → Solves (S.Signature.arities self.now.forest.now.signature.now) self.now.forest.now.codes.now self.now.rep.now μ
            → 255 < length (written μ self.now.forest.now.codes.now from to))
            (λ w. (μ : Subst) → Solves (S.Signature.arities self.now.forest.now.signature.now) self.now.forest.now.codes.now self.now.rep.now μ
            → bytes_of w ≡ written μ self.now.forest.now.codes.now from to) }
    {
        let mut out = Written::new();
        self.fill(from, to, &mut out)?;
        Some(out)
    }

    // The codes before `left` under the bindings, but in the place of the term at `place` those from the offset `from` on; or None if they are more
    // than 255.
    pub(crate) fn replaced(&self, place: usize, from: usize, left: usize) -> Option<Written>
        requires place { place < length self.now.forest.now.codes.now }
        requires order { slice_index self.now.forest.now.end.now place ≤ left }
        requires inside { left ≤ length self.now.forest.now.codes.now }
        requires rest { from ≤ length self.now.forest.now.codes.now }
        ensures { MatchOption result
            ((μ : Subst) → Solves (S.Signature.arities self.now.forest.now.signature.now) self.now.forest.now.codes.now self.now.rep.now μ
            → 255 < length (spliced μ self.now.forest.now.codes.now place from (slice_index self.now.forest.now.end.now place) left))
            (λ w. (μ : Subst) → Solves (S.Signature.arities self.now.forest.now.signature.now) self.now.forest.now.codes.now self.now.rep.now μ
            → bytes_of w ≡ spliced μ self.now.forest.now.codes.now place from (slice_index self.now.forest.now.end.now place) left) }
    {
        let next = self.forest.end[place] as usize;
        let mut out = Written::new();
        self.fill(0, place, &mut out)?;
        self.fill(from, self.forest.codes.len(), &mut out)?;
        self.fill(next, left, &mut out)?;
        Some(out)
    }
}

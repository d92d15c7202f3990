// Terms written under the bindings of a unifier.
ghost use Rattle.std.specs.Prelude.{◌≡◌, ◌+◌, ◌<◌, ◌≤◌, T, ◌⊎◌, ◌++◌, length, MatchOption, slice_index};
ghost use Rattle.terms.specs.Term.{Subst};
ghost use Rattle.unification.specs.Writing.{written, Below};
ghost use Rattle.unification.specs.Written.{bytes_of};
ghost use Rattle.unification.specs.Classes.{Solves};

use crate::forest::Unifier;
use crate::written::Written;
use terms::prefix::{Signature, VARIABLE};

// All ranks are below it.
const RANKS: u8 = 255;

impl<'a, S: Signature> Unifier<'a, S> {
    // Whether a variable stands at the offset `j` that is bound to more than a variable.
    fn is_bound(&self, j: usize) -> bool
        requires { j < length self.now.forest.now.codes.now }
        ensures variable { T result → 128 ≤ slice_index self.now.forest.now.codes.now j }
        ensures bound { T result → slice_index self.now.forest.now.codes.now (slice_index self.now.rep.now j) < 128 }
        ensures no { (T result → ⊥)
            → (slice_index self.now.forest.now.codes.now j < 128)
            ⊎ (128 ≤ slice_index self.now.forest.now.codes.now (slice_index self.now.rep.now j)) }
    {
        let codes = self.forest.codes;
        codes[j] >= VARIABLE && codes[self.rep[j] as usize] < VARIABLE
    }

    // Appends the terms from the offset `from` up to `to` under the bindings, or answers None if they do not fit. The ranks of what their variables
    // are bound to are below `below`.
    fn write(&self, from: usize, to: usize, below: u8, out: &mut Written) -> Option<()>
        requires order { from ≤ to }
        requires inside { to ≤ length self.now.forest.now.codes.now }
        requires falls { Below self.now.forest.now.codes.now self.now.rep.now self.now.rank.now from to below }
        ensures { MatchOption result
            ((μ : Subst) → Solves (S.Signature.arities self.now.forest.now.signature.now) self.now.forest.now.codes.now self.now.rep.now μ
            → 255 < length (bytes_of out.old) + length (written μ self.now.forest.now.codes.now from to))
            (λ _. (μ : Subst) → Solves (S.Signature.arities self.now.forest.now.signature.now) self.now.forest.now.codes.now self.now.rep.now μ
            → bytes_of out.new ≡ bytes_of out.old ++ written μ self.now.forest.now.codes.now from to) }
    {
        for j in from..to {
            let r = self.rep[j] as usize;
            if self.is_bound(j) {
                self.write(r, self.forest.end[r] as usize, self.rank[r], out)?;
            } else {
                if out.is_full() {
                    return None;
                }
                out.push(self.forest.codes[r]);
            }
        }
        Some(())
    }

    // Appends the terms from the offset `from` up to `to` under the bindings, whatever their variables are bound to.
    pub(crate) fn fill(&self, from: usize, to: usize, out: &mut Written) -> Option<()>
        requires order { from ≤ to }
        requires inside { to ≤ length self.now.forest.now.codes.now }
        ensures { MatchOption result
            ((μ : Subst) → Solves (S.Signature.arities self.now.forest.now.signature.now) self.now.forest.now.codes.now self.now.rep.now μ
            → 255 < length (bytes_of out.old) + length (written μ self.now.forest.now.codes.now from to))
            (λ _. (μ : Subst) → Solves (S.Signature.arities self.now.forest.now.signature.now) self.now.forest.now.codes.now self.now.rep.now μ
            → bytes_of out.new ≡ bytes_of out.old ++ written μ self.now.forest.now.codes.now from to) }
    {
        self.write(from, to, RANKS, out)
    }
}

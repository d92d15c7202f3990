// Whether two terms have a unifier.
ghost use Rattle.std.specs.Prelude.{◌≡◌, ◌<◌, length, MatchOption};
ghost use Rattle.unification.specs.Classes.{Unified, NotUnified};

use crate::forest::{Forest, Partition, Unifier};
use terms::prefix::Signature;

impl<'a, S: Signature> Forest<'a, S> {
    // A most general unifier of the terms at `p` and `q`, which takes the two tables; or None if they have no unifier.
    pub(crate) fn unify<'b>(
        &'b self,
        p: usize,
        q: usize,
        rep: &'b mut [u8],
        rank: &'b mut [u8],
    ) -> Option<Unifier<'b, S>>
        requires first { p < length self.now.codes.now }
        requires second { q < length self.now.codes.now }
        requires reps { length rep.old ≡ length self.now.codes.now }
        requires ranks { length rank.old ≡ length self.now.codes.now }
        ensures { MatchOption result
            (NotUnified (S.Signature.arities self.now.signature.now) self.now.codes.now p q)
            (λ u. (u.forest.now ≡ self.now)
            × Unified (S.Signature.arities self.now.signature.now) self.now.codes.now u.rep.now u.rank.now p q) }
    {
        self.begin(p, q, &mut *rep)?;
        self.close(&mut *rep)?;
        let classes = Partition {
            forest: &*self,
            rep: &*rep,
        };
        classes.order(&mut *rank)?;
        Some(Unifier {
            forest: &*self,
            rep: &*rep,
            rank: &*rank,
        })
    }
}

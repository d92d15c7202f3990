// Ranks for the symbols, each above those that the variables of its term are bound to: there are some exactly if no variable is bound to a term around it.
ghost use Rattle.std.specs.Prelude.{◌≡◌, ℕ, ◌<◌, ◌≤◌, T, length, MatchOption, slice_index};
ghost use Rattle.unification.specs.Classes.{NoSolution, Ready, Waits, Unranked, AllRanked, Stuck, Bindings};

use crate::forest::Partition;
use terms::prefix::{Signature, VARIABLE};

// Whether every symbol has a rank.
fn all_ranked(codes: &[u8], rank: &[u8]) -> bool
    requires ranks { length rank.now ≡ length codes.now }
    ensures yes { T result → AllRanked codes.now rank.now }
    ensures no { (T result → ⊥) → ((i : ℕ) × Unranked codes.now rank.now i) }
{
    codes
        .iter()
        .zip(rank)
        .all(|(c, r)| *c >= VARIABLE || *r > 0)
}

impl<'a, S: Signature> Partition<'a, S> {
    // Whether each variable from the offset `from` up to `to` is in the class of a variable or of a symbol that has a rank.
    fn is_ready(&self, rank: &[u8], from: usize, to: usize) -> bool
        requires ranks { length rank.now ≡ length self.now.forest.now.codes.now }
        requires within { to ≤ length self.now.forest.now.codes.now }
        ensures yes { T result → Ready self.now.forest.now.codes.now self.now.rep.now rank.now from to }
        ensures no { (T result → ⊥) → Waits self.now.forest.now.codes.now self.now.rep.now rank.now from to }
    {
        let codes = self.forest.codes;
        for j in from..to {
            let r = self.rep[j] as usize;
            if codes[j] >= VARIABLE && codes[r] < VARIABLE && rank[r] == 0 {
                return false;
            }
        }
        true
    }

    // A symbol that has no rank, and waits for none.
    fn next_ready(&self, rank: &[u8]) -> Option<usize>
        requires { length rank.now ≡ length self.now.forest.now.codes.now }
        ensures { MatchOption result
            (Stuck self.now.forest.now.codes.now self.now.forest.now.end.now self.now.rep.now rank.now)
            (λ i. (Unranked self.now.forest.now.codes.now rank.now i
            × Ready self.now.forest.now.codes.now self.now.rep.now rank.now i (slice_index self.now.forest.now.end.now i))) }
    {
        for (i, code) in self.forest.codes.iter().enumerate() {
            if *code < VARIABLE && rank[i] == 0 {
                if self.is_ready(rank, i, self.forest.end[i] as usize) {
                    return Some(i);
                }
            }
        }
        None
    }

    // Ranks the symbols. None if that cannot be done.
    pub(crate) fn order(&self, rank: &mut [u8]) -> Option<()>
        requires { length rank.old ≡ length self.now.forest.now.codes.now }
        ensures { MatchOption result
            (NoSolution (S.Signature.arities self.now.forest.now.signature.now) self.now.forest.now.codes.now self.now.rep.now)
            (λ _. Bindings (S.Signature.arities self.now.forest.now.signature.now) self.now.forest.now.codes.now self.now.rep.now rank.new) }
    {
        rank.fill(0);
        let mut next: u8 = 1;
        while let Some(i) = self.next_ready(rank) {
            rank[i] = next;
            next += 1;
        }
        all_ranked(self.forest.codes, rank).then_some(())
    }
}

// Classes of offsets whose terms every unifier makes equal. They are merged until the arguments of terms in one class are in one class.
ghost use Rattle.std.specs.Prelude.{◌≡◌, ℕ, ◌<◌, ◌≤◌, length, MatchOption, ◌≢◌, slice_index};
ghost use Rattle.unification.specs.Classes.{Classes, ClosedAt, Closed, Split, Relabelled, Merged, Clash, Initial, Progress, NoSolution, Begun, NotUnified};

use crate::forest::{Forest, Partition};
use crate::standing::arguments;
use terms::prefix::{Signature, VARIABLE};

impl<'a, S: Signature> Partition<'a, S> {
    // The first arguments of the terms at `i` and `r`, which begin with the same code, that are in different classes.
    fn argument_split(&self, i: usize, r: usize) -> Option<(usize, usize)>
        requires first { i < length self.now.forest.now.codes.now }
        requires second { r < length self.now.forest.now.codes.now }
        requires same { slice_index self.now.forest.now.codes.now r ≡ slice_index self.now.forest.now.codes.now i }
        ensures { MatchOption result
            (ClosedAt (S.Signature.arities self.now.forest.now.signature.now) self.now.forest.now.codes.now self.now.rep.now i r)
            (λ p. Split (S.Signature.arities self.now.forest.now.signature.now) self.now.forest.now.codes.now self.now.rep.now i r p.0 p.1) }
    {
        let mut a = i + 1;
        let mut b = r + 1;
        let many = arguments(self.forest.signature, self.forest.codes[i]);
        for _k in 0..many {
            if self.rep[a] != self.rep[b] {
                return Some((a, b));
            }
            a = self.forest.end[a] as usize;
            b = self.forest.end[b] as usize;
        }
        None
    }

    // Two offsets in different classes whose terms a unifier must make equal, since their parents are in one class.
    fn first_split(&self) -> Option<(usize, usize)>
        ensures { MatchOption result
            (Closed (S.Signature.arities self.now.forest.now.signature.now) self.now.forest.now.codes.now self.now.rep.now)
            (λ p. ((i : ℕ) × (i < length self.now.forest.now.codes.now)
            × Split (S.Signature.arities self.now.forest.now.signature.now) self.now.forest.now.codes.now self.now.rep.now i (slice_index self.now.rep.now i) p.0 p.1)) }
    {
        for (i, code) in self.forest.codes.iter().enumerate() {
            if *code < VARIABLE {
                if let Some(split) = self.argument_split(i, self.rep[i] as usize) {
                    return Some(split);
                }
            }
        }
        None
    }
}

// Each entry `lose` of `rep` becomes `keep`.
fn relabel(rep: &mut [u8], lose: u8, keep: u8)
    ensures { Relabelled lose keep rep.old rep.new }
{
    for r in rep.iter_mut() {
        if *r == lose {
            *r = keep;
        }
    }
}

// Joins the classes of `a` and `b`, so that a symbol represents the new one if there is one; or None if their symbols differ.
fn merge(codes: &[u8], rep: &mut [u8], a: usize, b: usize) -> Option<()>
    requires classes { Classes codes.now rep.old }
    requires first { a < length codes.now }
    requires second { b < length codes.now }
    requires apart { slice_index rep.old a ≢ slice_index rep.old b }
    ensures { MatchOption result
        (Clash codes.now (slice_index rep.old a) (slice_index rep.old b))
        (λ _. Merged codes.now rep.old rep.new (slice_index rep.old a) (slice_index rep.old b)) }
{
    let x = rep[a];
    let y = rep[b];
    if codes[x as usize] >= VARIABLE {
        relabel(rep, x, y);
        return Some(());
    }
    if codes[y as usize] >= VARIABLE {
        relabel(rep, y, x);
        return Some(());
    }
    if codes[x as usize] != codes[y as usize] {
        return None;
    }
    relabel(rep, x, y);
    Some(())
}

// The offset of the first code `c`, or how many codes there are if none is `c`.
pub(crate) fn first_code(codes: &[u8], c: u8) -> usize
    ensures within { result ≤ length codes.now }
    ensures before { (k : ℕ) → k < result → slice_index codes.now k ≢ c }
    ensures found { result < length codes.now → slice_index codes.now result ≡ c }
{
    codes.iter().position(|x| *x == c).unwrap_or(codes.len())
}

// Each offset in a class of its own, but the occurrences of a variable in that of the first.
fn start(codes: &[u8], rep: &mut [u8])
    requires few { length codes.now ≤ 128 }
    requires room { length rep.old ≡ length codes.now }
    ensures { (i : ℕ) → i < length codes.now → Initial codes.now i (slice_index rep.new i) }
{
    for (i, c) in codes.iter().enumerate() {
        let first = if *c >= VARIABLE {
            first_code(codes, *c)
        } else {
            i
        };
        rep[i] = first as u8;
    }
}

impl<'a, S: Signature> Forest<'a, S> {
    // Merges classes until they are closed: the arguments of terms in one class are in one class. None if two symbols differ.
    pub(crate) fn close(&self, rep: &mut [u8]) -> Option<()>
        requires { Classes self.now.codes.now rep.old }
        ensures { MatchOption result
            (NoSolution (S.Signature.arities self.now.signature.now) self.now.codes.now rep.old)
            (λ _. Progress (S.Signature.arities self.now.signature.now) self.now.codes.now rep.old rep.new
            × Closed (S.Signature.arities self.now.signature.now) self.now.codes.now rep.new) }
    {
        'merging: loop {
            let classes = Partition {
                forest: &*self,
                rep: &*rep,
            };
            let Some((a, b)) = classes.first_split() else {
                return Some(());
            };
            merge(self.codes, rep, a, b)?;
        }
    }

    // The classes at the start, with those of `p` and `q` merged. None if their symbols differ.
    pub(crate) fn begin(&self, p: usize, q: usize, rep: &mut [u8]) -> Option<()>
        requires first { p < length self.now.codes.now }
        requires second { q < length self.now.codes.now }
        requires reps { length rep.old ≡ length self.now.codes.now }
        ensures { MatchOption result
            (NotUnified (S.Signature.arities self.now.signature.now) self.now.codes.now p q)
            (λ _. Begun (S.Signature.arities self.now.signature.now) self.now.codes.now rep.new p q) }
    {
        start(self.codes, rep);
        if rep[p] == rep[q] {
            return Some(());
        }
        merge(self.codes, rep, p, q)
    }
}

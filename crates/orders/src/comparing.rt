// Whether a term is greater than another by the path order. Each function asks only the arguments that decide, so that no pair of parts is asked twice.
ghost use Rattle.std.specs.Prelude.{◌≡◌, ℕ, ◌<◌, ◌≤◌, ◌⊎◌, length, drop, IfSome, Decides};
ghost use Rattle.terms.specs.Term.{Term, Terms, node, cons, size};
ghost use Rattle.terms.specs.Prefix.{prefix, WellSorted, Reads, FirstTerm};
ghost use Rattle.book.specs.Meaning.{signature_of};
ghost use Rattle.order_theory.specs.Path.{Greater, SomeAtLeast, GreaterThanAll, Common};
ghost use Rattle.orders.specs.Ranks.{rank_of};

use crate::path::Path;
use terms::prefix::{VARIABLE, first_term_length};
use terms::side::RULE_VARIABLES;

impl<'a> Path<'a> {
    // The rank of a code, and 0 if it has none.
    pub(crate) fn rank(&self, code: u8) -> u8
        ensures { result ≡ rank_of self.now.book.tables.bytes.now code }
    {
        match self.ranks.get(code) {
            Some(place) => self.book.bytes().get(place).copied().unwrap_or(0),
            None => 0,
        }
    }

    // Whether g is a code, and f has the higher rank.
    fn higher(&self, f: u8, g: u8) -> bool
        ensures { Decides result ((g < 128) × (rank_of self.now.book.tables.bytes.now g < rank_of self.now.book.tables.bytes.now f)) }
    {
        g < VARIABLE && self.rank(f) > self.rank(g)
    }

    // The length of the first of the terms that stand one after the other in the bytes, or None if there is none.
    fn first_length(&self, bytes: &[u8]) -> Option<usize>
        ensures inside { IfSome result (λ n. (1 ≤ n) × (n ≤ length bytes.now)) }
        ensures first { FirstTerm (signature_of self.now.book.tables.bytes.now) 4 bytes.now result }
    {
        first_term_length(&self.book, RULE_VARIABLES, bytes)
    }

    // Whether s is greater than t.
    #[cycle(path_order)]
    pub(crate) fn greater(&self, s: &[u8], t: &[u8]) -> bool
        ensures { (a b : Term)
            → Reads (signature_of self.now.book.tables.bytes.now) 4 s.now a
            → Reads (signature_of self.now.book.tables.bytes.now) 4 t.now b
            → Decides result (Greater (rank_of self.now.book.tables.bytes.now) a b) }
    {
        let [f, ss @ ..] = s else {
            return false;
        };
        let [g, ts @ ..] = t else {
            return false;
        };
        if *f >= VARIABLE {
            return false;
        }
        if *f == *g {
            return self.greater_by_arguments(s, t, 1);
        }
        if self.higher(*f, *g) {
            return self.greater_than_all(s, ts);
        }
        self.some_at_least(ss, t)
    }

    // Whether s is t or greater.
    #[cycle(path_order)]
    fn greater_or_same(&self, s: &[u8], t: &[u8]) -> bool
        ensures { (a b : Term)
            → Reads (signature_of self.now.book.tables.bytes.now) 4 s.now a
            → Reads (signature_of self.now.book.tables.bytes.now) 4 t.now b
            → Decides result ((a ≡ b) ⊎ Greater (rank_of self.now.book.tables.bytes.now) a b) }
    {
        s == t || self.greater(s, t)
    }

    // Whether one of the terms that stand one after the other in ss is t or greater.
    #[cycle(path_order)]
    fn some_at_least(&self, ss: &[u8], t: &[u8]) -> bool
        ensures { (xs : Terms) (b : Term)
            → WellSorted (signature_of self.now.book.tables.bytes.now) 4 xs
            → prefix xs ≡ ss.now
            → Reads (signature_of self.now.book.tables.bytes.now) 4 t.now b
            → Decides result (SomeAtLeast (rank_of self.now.book.tables.bytes.now) xs b) }
    {
        let Some(n) = self.first_length(ss) else {
            return false;
        };
        if self.greater_or_same(&ss[..n], t) {
            return true;
        }
        self.some_at_least(&ss[n..], t)
    }

    // Whether s is greater than each of the terms that stand one after the other in ts.
    #[cycle(path_order)]
    fn greater_than_all(&self, s: &[u8], ts: &[u8]) -> bool
        ensures { (a : Term) (bs : Terms)
            → Reads (signature_of self.now.book.tables.bytes.now) 4 s.now a
            → WellSorted (signature_of self.now.book.tables.bytes.now) 4 bs
            → prefix bs ≡ ts.now
            → Decides result (GreaterThanAll (rank_of self.now.book.tables.bytes.now) a bs) }
    {
        let Some(n) = self.first_length(ts) else {
            return true;
        };
        if !self.greater(s, &ts[..n]) {
            return false;
        }
        self.greater_than_all(s, &ts[n..])
    }

    // Whether s is greater than t, which has the same head, where their arguments up to the place i are the same.
    #[cycle(path_order)]
    fn greater_by_arguments(&self, s: &[u8], t: &[u8], i: usize) -> bool
        requires some { 1 ≤ i }
        requires left { i ≤ length s.now }
        requires right { i ≤ length t.now }
        ensures { (f : ℕ) (us vs xs ys : Terms)
            → Reads (signature_of self.now.book.tables.bytes.now) 4 s.now (node f us)
            → Reads (signature_of self.now.book.tables.bytes.now) 4 t.now (node f vs)
            → Common us vs xs ys
            → prefix xs ≡ drop i s.now
            → prefix ys ≡ drop i t.now
            → Decides result (Greater (rank_of self.now.book.tables.bytes.now) (node f us) (node f vs)) }
    {
        let Some(m) = self.first_length(&s[i..]) else {
            return false;
        };
        let Some(n) = self.first_length(&t[i..]) else {
            return false;
        };
        let a = i + m;
        let b = i + n;
        if s[i..a] == t[i..b] {
            return self.greater_by_arguments(s, t, a);
        }
        if self.greater(&s[i..a], &t[i..b]) {
            return self.greater_than_all(s, &t[b..]);
        }
        self.some_at_least(&s[a..], t)
    }
}

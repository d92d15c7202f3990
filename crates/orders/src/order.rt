// What an order is, whatever it compares by.
ghost use Rattle.std.specs.Prelude.{◌≡◌, ℕ, List};
ghost use Rattle.terms.specs.Term.{Term};
ghost use Rattle.terms.specs.Prefix.{Arities};
ghost use Rattle.order_theory.specs.Laws.{OrderLaws};

// The grade of a pair that is no pair of sides of rules.
pub const MALFORMED: u8 = 8;

// A reduction order on the terms of a signature that grades pairs of byte strings: 0 says that the left is over the right, and 8 that one of them is no side
// of a rule.
pub trait Order {
    // The number of the order's kind.
    const KIND: u8;

    ghost kind: { ℕ };

    ghost signature: { Self → Arities };

    ghost grade: { Self → List ℕ → List ℕ → ℕ };

    ghost over: { Self → Term → Term → Type 0 };

    ghost laws: { (s : Self) → OrderLaws (signature s) (grade s) (over s) };

    // The number of the kind: what `KIND` is, which no contract can name.
    fn kind_number() -> u8
        ensures { result ≡ kind };

    // The arity of a code, or None if it is no symbol's.
    fn arity(&self, code: u8) -> Option<u8>
        ensures { result ≡ signature self.now code };

    // The grade of a pair.
    fn weigh(&self, left: &[u8], right: &[u8]) -> u8
        ensures { result ≡ grade self.now left.now right.now };
}

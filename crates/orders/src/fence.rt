// The fence: an order over any order, for the rules of a rewrite system.
ghost use Rattle.std.specs.Prelude.{◌≡◌};
ghost use Rattle.std.specs.List.{list_all};
ghost use Rattle.order_theory.specs.Fence.{is_known, is_proper, fence_grade};
ghost use Rattle.order_theory.proofs.Fences.{fence_keeps_the_laws};

use crate::order::{MALFORMED, Order};
use terms::prefix::VARIABLE;

// The grade of a left side that is a variable, and of a right side with a variable that the left lacks.
const IMPROPER: u8 = 9;

// Whether the byte is a code, or a variable of the left side.
fn is_known(left: &[u8], byte: u8) -> bool
    ensures { result ≡ is_known left.now byte }
{
    byte < VARIABLE || left.contains(&byte)
}

// Whether each variable of the right side is one of the left side.
fn keeps_variables(left: &[u8], right: &[u8]) -> bool
    ensures { result ≡ list_all (is_known left.now) right.now }
{
    right.iter().all(|byte| is_known(left, *byte))
}

// Whether the left side is no variable, and the right side has no variable that the left lacks.
fn is_proper(left: &[u8], right: &[u8]) -> bool
    ensures { result ≡ is_proper left.now right.now }
{
    left.first().is_some_and(|head| *head < VARIABLE) && keeps_variables(left, right)
}

// An order that grades a malformed pair 8 first, then a pair that can be no rule's 9, and any other as the order beneath.
#[derive(Drop)]
pub struct Fence<'a, O> {
    beneath: &'a O,
}

impl<'a, O: Order> Fence<'a, O> {
    // The fence over an order.
    pub fn over(beneath: &'a O) -> Fence<'a, O>
        ensures { result.beneath.now ≡ beneath.now }
    {
        Fence { beneath }
    }
}

impl<'a, O: Order> Order for Fence<'a, O> {
    const KIND: u8 = O::KIND;

    ghost kind = { O.Order.kind };

    ghost signature = { λ f. O.Order.signature f.beneath.now };

    ghost grade = { λ f. fence_grade (O.Order.grade f.beneath.now) };

    ghost over = { λ f. O.Order.over f.beneath.now };

    ghost laws = { λ f. fence_keeps_the_laws (O.Order.signature f.beneath.now) (O.Order.grade f.beneath.now) (O.Order.over f.beneath.now) (O.Order.laws f.beneath.now) };

    fn kind_number() -> u8 {
        O::kind_number()
    }

    fn arity(&self, code: u8) -> Option<u8> {
        self.beneath.arity(code)
    }

    fn weigh(&self, left: &[u8], right: &[u8]) -> u8 {
        let grade = self.beneath.weigh(left, right);
        if grade == MALFORMED {
            return MALFORMED;
        }
        if !is_proper(left, right) {
            return IMPROPER;
        }
        grade
    }
}

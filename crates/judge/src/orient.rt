// Whether the rules of a book fall under an order.
ghost use Rattle.std.specs.Prelude.{◌≡◌, ℕ, ◌<◌, true, length, Decides, MatchResult};
ghost use Rattle.terms.specs.Term.{rule_at};
ghost use Rattle.terms.specs.Prefix.{WellSorted};
ghost use Rattle.rewriting.specs.Rewrite.{RulesOf};
ghost use Rattle.book.specs.Meaning.{signature_of, rules_of};
ghost use Rattle.judge.specs.Orient.{SameSignature, rule_grade, Falls, OrientRefused};

use crate::orient_fault::OrientFault;
use book::book::Book;
use orders::fence::Fence;
use orders::order::Order;
use terms::prefix::Signature;

// Whether the order has the book's arity of each byte.
fn same_signature<O: Order>(book: &Book, order: &O) -> bool
    ensures { Decides result (SameSignature (O.Order.signature order.now) (signature_of book.now.tables.bytes.now)) }
{
    for code in 0..=255u8 {
        if order.arity(code) != book.arity(code) {
            return false;
        }
    }
    true
}

// The grade of the rule i through the fence over the order.
fn grade_of_rule<O: Order>(book: &Book, order: &O, i: usize) -> u8
    requires { i < length (rules_of book.now.tables.bytes.now) }
    ensures grade { result ≡ rule_grade (O.Order.grade order.now) (rules_of book.now.tables.bytes.now) i }
    ensures sorted { WellSorted (signature_of book.now.tables.bytes.now) 4 (rule_at (rules_of book.now.tables.bytes.now) i).left
        × WellSorted (signature_of book.now.tables.bytes.now) 4 (rule_at (rules_of book.now.tables.bytes.now) i).right }
{
    let sides = book.sides(i).unwrap();
    Fence::over(order).weigh(sides.left, sides.right)
}

// Whether all rules of the book fall under the order; if not, the first fault.
pub(crate) fn rules_fall<O: Order>(book: &Book, order: &O) -> Result<(), OrientFault>
    ensures { MatchResult result
        (λ _. Falls (O.Order.signature order.now) (O.Order.grade order.now) (signature_of book.now.tables.bytes.now) (rules_of book.now.tables.bytes.now)
        × RulesOf (signature_of book.now.tables.bytes.now) 4 (rules_of book.now.tables.bytes.now))
        (λ e. OrientRefused (O.Order.signature order.now) (O.Order.grade order.now) O.Order.kind (signature_of book.now.tables.bytes.now) (rules_of book.now.tables.bytes.now) e) }
{
    if !same_signature(book, order) {
        return Err(OrientFault::OtherSignature);
    }
    for i in 0..book.rule_count() {
        let grade = grade_of_rule(book, order, i);
        if grade != 0 {
            return Err(OrientFault::NotOver {
                rule: i,
                kind: O::kind_number(),
                grade,
            });
        }
    }
    Ok(())
}

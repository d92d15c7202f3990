// What holds of every reduction order, and of every property of terms.
ghost use Rattle.terms.specs.Term.{Term};
ghost use Rattle.terms.specs.Prefix.{Arities};
ghost use Rattle.rewriting.specs.Order.{OverOf, ReductionOrder};
ghost use Rattle.rewriting.specs.Theorems.{OrientedRulesTerminate, Induction, InductionGivesAccessibility};

// A reduction order on the terms of a signature.
pub trait Reduction {
    ghost signature: { Self → Arities };

    ghost over: { Self → Term → Term → Type 0 };

    ghost laws: { (s : Self) → ReductionOrder (signature s) (over s) };
}

// A property of terms.
pub trait Property {
    ghost holds: { Self → Term → Type 0 };
}

// Rules that fall in a reduction order terminate.
pub fn oriented_rules_terminate<O: Reduction>(order: &O)
    ensures { OrientedRulesTerminate (O.Reduction.signature order.now) (O.Reduction.over order.now) }
{}

// No endless descent gives induction for every property.
pub fn no_descent_gives_induction<O: Reduction, P: Property>(order: &O, property: &P)
    ensures { Induction (OverOf (O.Reduction.signature order.now) (O.Reduction.over order.now)) (P.Property.holds property.now) }
{}

// And induction gives that there is no endless descent.
pub fn induction_gives_no_descent<O: Reduction>(order: &O)
    ensures { InductionGivesAccessibility (O.Reduction.signature order.now) (O.Reduction.over order.now) }
{}

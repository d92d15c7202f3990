// Theorems on orders: each function does nothing, and its contract is what is proved.
ghost use Rattle.order_theory.specs.Theorems.{PathOrderInWords, PathOrderIsStrict, PathOrderKeepsTheLaws, PolynomialOrderKeepsTheLaws, EqualRanksGradeAlike, EqualPolynomialsGradeAlike};
ghost use Rattle.order_theory.specs.Fence.{FenceInWords};
ghost use Rattle.order_theory.specs.Examples.{OrdersHoldAndFail};

pub fn path_order_in_words()
    ensures { PathOrderInWords }
{}

pub fn path_order_is_strict()
    ensures { PathOrderIsStrict }
{}

pub fn path_order_keeps_the_laws()
    ensures { PathOrderKeepsTheLaws }
{}

pub fn polynomial_order_keeps_the_laws()
    ensures { PolynomialOrderKeepsTheLaws }
{}

pub fn equal_ranks_grade_alike()
    ensures { EqualRanksGradeAlike }
{}

pub fn equal_polynomials_grade_alike()
    ensures { EqualPolynomialsGradeAlike }
{}

pub fn fence_in_words()
    ensures { FenceInWords }
{}

pub fn definitions_hold_and_fail()
    ensures { OrdersHoldAndFail }
{}

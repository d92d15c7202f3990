// What the definitions of figures say of small examples: the function does nothing, and its contract is what is proved.
ghost use Rattle.orders.specs.Examples.{FiguresHoldAndFail};

pub fn definitions_hold_and_fail()
    ensures { FiguresHoldAndFail }
{}

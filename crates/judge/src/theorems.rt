// What the definitions of orienting say of small examples: the function does nothing, and its contract is what is proved.
ghost use Rattle.judge.specs.Examples.{OrientingHoldsAndFails};

pub fn definitions_hold_and_fail()
    ensures { OrientingHoldsAndFails }
{}

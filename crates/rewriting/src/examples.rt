// Small examples of the definitions: each function does nothing, and its contract is what is proved.
ghost use Rattle.rewriting.specs.Examples.{SelfOverlapExample, NoOverlapExample, InnermostExample, GrowingExample, RootExample, OrderExample};

pub fn self_overlap_example()
    ensures { SelfOverlapExample }
{}

pub fn no_overlap_example()
    ensures { NoOverlapExample }
{}

pub fn innermost_example()
    ensures { InnermostExample }
{}

pub fn growing_example()
    ensures { GrowingExample }
{}

pub fn root_example()
    ensures { RootExample }
{}

pub fn order_example()
    ensures { OrderExample }
{}

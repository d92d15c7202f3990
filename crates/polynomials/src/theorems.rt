// The theorems: each function does nothing, and its contract is what is proved.
ghost use Rattle.polynomials.specs.Theorems.{EvaluationTheorem, NoNegativeCoefficient, GradeZeroIsOver, InterpretationGivesReductionOrder};
ghost use Rattle.polynomials.specs.Examples.{GradeExamples};

pub fn evaluation_theorem()
    ensures { EvaluationTheorem }
{}

pub fn no_negative_coefficient()
    ensures { NoNegativeCoefficient }
{}

pub fn grade_zero_is_over()
    ensures { GradeZeroIsOver }
{}

pub fn interpretation_gives_reduction_order()
    ensures { InterpretationGivesReductionOrder }
{}

pub fn grade_examples()
    ensures { GradeExamples }
{}

// Two lists of told steps.
ghost use Rattle.std.specs.Prelude.{MatchOption};
ghost use Rattle.judge.specs.Overlaps.{ListFits};
ghost use Rattle.judge.specs.Showing.{Tells};

// A list has at most so many steps.
const STEPS: usize = 64;

// The steps that a list of bytes tells, a rule and a place for each, or None if the last is cut or they are too many.
fn told_steps(list: &[u8]) -> Option<&[[u8; 2]]>
    ensures { MatchOption result (ListFits list.now → ⊥) (λ steps. Tells list.now steps.now) }
{
    let (steps, rest) = list.as_chunks::<2>();
    if rest.is_empty() && steps.len() <= STEPS {
        Some(steps)
    } else {
        None
    }
}

// The steps that are to lead from the outer and from the inner side of an overlap to one term.
#[derive(Clone, Copy)]
pub(crate) struct Joining<'a> {
    pub(crate) outer: &'a [[u8; 2]],
    pub(crate) inner: &'a [[u8; 2]],
}

impl<'a> Joining<'a> {
    // The steps that two lists tell, or None if one of them tells none.
    pub(crate) fn told(outer_list: &'a [u8], inner_list: &'a [u8]) -> Option<Joining<'a>>
        ensures { MatchOption result
            (ListFits outer_list.now × ListFits inner_list.now → ⊥)
            (λ joining. Tells outer_list.now joining.outer.now × Tells inner_list.now joining.inner.now) }
    {
        let outer = told_steps(outer_list)?;
        let inner = told_steps(inner_list)?;
        Some(Joining { outer, inner })
    }
}

// Fields, and the sides of rules, as parts of lent bytes.
ghost use Rattle.std.specs.Prelude.{◌≡◌, ◌+◌, ◌<◌, ◌≤◌, length, MatchOption, slice_index};
ghost use Rattle.book.specs.Meaning.{left_side, right_side};
ghost use Rattle.book.specs.Views.{meant};

pub use terms::side::Sides;

// A field as a part of lent bytes.
#[derive(Clone, Copy, PartialEq, Eq, Debug)]
pub struct Field<'a> {
    pub offset: usize,
    pub tag: u8,
    pub value: &'a [u8],
}

impl<'a> Field<'a> {
    // The value as the sides of a rule, whose first byte is the length of the left one; None if the value is shorter than that.
    pub fn sides(&self) -> Option<Sides<'a>>
        ensures { MatchOption result
            (length self.now.value.now < 1 + slice_index self.now.value.now 0)
            (λ s. (1 + slice_index self.now.value.now 0 ≤ length self.now.value.now)
            × (s.left.now ≡ left_side (meant self.now))
            × (s.right.now ≡ right_side (meant self.now))) }
    {
        let (length, sides) = self.value.split_first()?;
        let (left, right) = sides.split_at_checked(*length as usize)?;
        Some(Sides { left, right })
    }
}

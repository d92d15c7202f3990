// Why the rules of a book are not oriented.
ghost use Rattle.std.specs.Prelude.{◌≡◌};
ghost use Rattle.judge.specs.Orient.{number_of};

// The signatures differ; or a rule is not over: its number, the order's kind, and the grade of its sides.
#[derive(Clone, Copy, PartialEq, Eq, Debug)]
pub enum OrientFault {
    OtherSignature,
    NotOver { rule: usize, kind: u8, grade: u8 },
}

impl OrientFault {
    // The number of the question that says no.
    pub fn number(&self) -> u8
        ensures { result ≡ number_of self.now }
    {
        match self {
            OrientFault::OtherSignature => 14,
            OrientFault::NotOver { .. } => 15,
        }
    }
}

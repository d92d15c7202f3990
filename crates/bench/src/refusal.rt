// Why bytes are no book, or a book is not oriented.
ghost use Rattle.std.specs.Prelude.{◌≡◌, Some};
ghost use Rattle.bench.specs.Lines.{refusal_line, not_read};
ghost use Rattle.bench.specs.Orienting.{rule_in, not_oriented};

use book::fault::Fault;
use judge::orient_fault::OrientFault;
use orders::book_order::FigureFault;
use std::fmt;

// The number of the question that says no, and the offset or the rule that it says no to, 0 where there is none.
#[derive(Clone, Copy, PartialEq, Eq, Debug)]
pub(crate) struct Refusal {
    pub(crate) number: u8,
    pub(crate) place: usize,
}

impl fmt::Display for Refusal {
    ghost output = { λ r. Some (refusal_line r) };

    fn fmt<W: fmt::Write>(&self, f: &mut fmt::Formatter<W>) -> fmt::Result {
        let number = self.number % 100;
        let place = self.place % 100_000;
        write!(f, "refused {number:02} {place:05}")
    }
}

impl From<Fault> for Refusal {
    ghost from_gives = { λ fault r. r ≡ not_read fault };

    fn from(fault: Fault) -> Refusal {
        Refusal {
            number: fault.number(),
            place: fault.offset().unwrap_or(0),
        }
    }
}

// The rule that a fault names, and 0 if it names none.
fn rule_in(fault: &OrientFault) -> usize
    ensures { result ≡ rule_in fault.now }
{
    match fault {
        OrientFault::OtherSignature => 0,
        OrientFault::NotOver { rule, .. } => *rule,
    }
}

impl From<OrientFault> for Refusal {
    ghost from_gives = { λ fault r. r ≡ not_oriented fault };

    fn from(fault: OrientFault) -> Refusal {
        Refusal {
            number: fault.number(),
            place: rule_in(&fault),
        }
    }
}

// Why the fields of a book give no order.
pub(crate) fn no_order<F: FigureFault + Copy>(fault: F) -> Refusal
    ensures number { result.number ≡ F.question fault }
    ensures place { result.place ≡ F.field_at fault }
{
    Refusal {
        number: fault.number(),
        place: fault.offset(),
    }
}

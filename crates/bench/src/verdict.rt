// What is said of a book, and the line that says it.
ghost use Rattle.std.specs.Prelude.{◌≡◌, Some, IfOk, string_bytes};
ghost use Rattle.bench.specs.Lines.{verdict_line, line_of};

use crate::refusal::Refusal;
use std::alloc::{AllocError, Global};
use std::fmt;

// A book is read, or also oriented by its order.
#[derive(Clone, Copy, PartialEq, Eq, Debug)]
pub(crate) enum Verdict {
    Read { symbols: usize, rules: usize },
    Oriented { rules: usize },
}

impl fmt::Display for Verdict {
    ghost output = { λ v. Some (verdict_line v) };

    fn fmt<W: fmt::Write>(&self, f: &mut fmt::Formatter<W>) -> fmt::Result {
        match *self {
            Verdict::Read { symbols, rules } => {
                let symbols = symbols % 100_000;
                let rules = rules % 100_000;
                write!(f, "read {symbols:05} {rules:05}")
            }
            Verdict::Oriented { rules } => {
                let rules = rules % 100_000;
                write!(f, "oriented {rules:05}")
            }
        }
    }
}

// The line for a verdict or a refusal.
pub(crate) fn line(heap: Global, said: Result<Verdict, Refusal>) -> Result<String, AllocError>
    ensures { IfOk result (λ s. string_bytes s ≡ line_of said) }
{
    match said {
        Ok(verdict) => verdict.to_string(heap),
        Err(refusal) => refusal.to_string(heap),
    }
}

// The lines that the program prints.
ghost use Rattle.std.specs.Prelude.{IfOk, string_bytes};
ghost use Rattle.bench.specs.Lines.{line_of, VerdictLine};

use crate::refusal::Refusal;
use crate::verdict::{Verdict, line};
use book::book::Book;
use std::alloc::{AllocError, Global};

// What is said of the bytes of a book.
fn verdict(bytes: &[u8]) -> Result<Verdict, Refusal>
    ensures { VerdictLine bytes.now (line_of result) }
{
    let mut book = Book::empty();
    book.read(bytes)?;
    Ok(Verdict::Read {
        symbols: book.symbol_count(),
        rules: book.rule_count(),
    })
}

// The line for the bytes of a book.
pub fn verdict_line(heap: Global, bytes: &[u8]) -> Result<String, AllocError>
    ensures { IfOk result (λ s. VerdictLine bytes.now (string_bytes s)) }
{
    line(heap, verdict(bytes))
}

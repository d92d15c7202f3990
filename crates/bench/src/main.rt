// Reads the rule book in the file `book` and prints one line: whether it is well formed, and if not, which question says no first and where.
#![tactic(auto)]

mod lines;
mod orienting;
mod refusal;
mod verdict;

use lines::verdict_line;
use std::fs;

fn run(rt: &HostRuntime) -> anyhow::Result<()> {
    let bytes = fs::read(rt, "book")?;
    let line = verdict_line(rt.alloc(), bytes.as_slice())?;
    println!(rt; "{line}")?;
    Ok(())
}

fn main(rt: HostRuntime) -> anyhow::Result<()> {
    run(&rt)
}

// One rewrite step on the prefix bytes of a term with the rules of a book: carried out at a place, and the innermost one found.
#![tactic(auto)]

#[cfg(test)]
mod examples;
mod matching;
pub mod outcome;
pub mod search;
pub mod step;
mod subject;
mod writing;

// The judge of a rule book.
#![tactic(auto)]

pub mod fault;
mod joining;
pub mod judge;
pub mod laws;
mod opening;
mod orient;
pub mod orient_fault;
mod overlaps;
mod page;
pub mod progress;
pub mod sealed;
mod sealing;
mod showing;
mod shows;
mod sides;
pub mod theorems;
pub mod ticket;
pub mod triple;

// Orders on terms.
#![tactic(auto)]

pub mod book_order;
mod comparing;
pub mod fence;
mod figures;
mod interpretation;
mod monomials;
pub mod order;
pub mod path;
pub mod path_fault;
pub mod polynomial;
pub mod polynomial_fault;
mod ranks;
pub mod theorems;

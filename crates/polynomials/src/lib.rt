// Polynomial interpretations of terms: the order that they give, and how it is decided by coefficients.
#![tactic(auto)]

mod algebra;
pub mod grade;
mod grading;
mod measure;
pub mod monomial;
mod prefix_term;
mod shifted;
pub mod symbols;
mod table;
pub mod theorems;

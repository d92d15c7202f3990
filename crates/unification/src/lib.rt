// Whether two left sides of rules overlap, decided by unification, and the critical pair of an overlap.
#![tactic(auto)]

mod classes;
pub mod critical;
mod forest;
mod instances;
mod laying;
mod numbering;
mod ranks;
mod standing;
mod unify;
mod writing;
pub mod written;

// The theory of rewriting: what is proved of rules, overlaps and orders, whatever the program.
#![tactic(auto)]

pub mod examples;
pub mod order;
pub mod theorems;

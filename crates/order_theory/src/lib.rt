// Theorems on orders.
#![tactic(auto)]

pub mod theorems;

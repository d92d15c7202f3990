// First-order terms in prefix form: a symbol's code stands before its arguments, and the variables are the bytes from 80 on.
#![tactic(auto)]

pub mod prefix;
pub mod side;
pub mod theorems;

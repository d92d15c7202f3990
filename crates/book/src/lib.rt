// Rule books: their bytes are lent and read field by field, and never copied.
#![tactic(auto)]

pub mod book;
pub mod fault;
pub mod field;
pub mod fields;
mod offsets;
pub mod places;
pub mod reader;
pub mod shape;
pub mod side;
mod tables;
pub mod theorems;

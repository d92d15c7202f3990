// The sides of rules.
pub use terms::side::is_side;

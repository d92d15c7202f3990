// Examples, run through the public calls.
#![tactic(auto)]

#[cfg(test)]
mod books;
#[cfg(test)]
mod cases;
mod client;
#[cfg(test)]
mod contents;
mod doubling;
#[cfg(test)]
mod grading;
#[cfg(test)]
mod judging;
#[cfg(test)]
mod overlaps;

//! Descriptions by example: two machines of our own that are accepted, and texts that are refused, each told by its rule.
//!
//! - `machines`: the texts of `examples/duo.vpo` and `examples/tri.vpo`.
//! - `edits`: a machine with some lines replaced. Each refused text is such a one, with the line, the rule and the detail worked out by hand
//!   (`docs/refused.json` has them all).
//! - `verdict`: what is told of a text.
//!
//! The tests of all crates of descriptions stand here. A test is a loop over a table with one assertion: the table is a constant of flat rows
//! of literals, gone over by reference, one helper judges a row and answers a `bool`, and each call that owns something stands in a function
//! of its own, as `let Ok(value) = call() else { return false; }; judge(&value)`. So little is alive wherever a function may end, and the
//! proof of a test takes seconds.
#![tactic(auto)]

#[cfg(test)]
mod duo_accepted;
#[cfg(test)]
mod duo_lines;
#[cfg(test)]
mod duo_rows;
#[cfg(test)]
mod duo_shapes;
mod edits;
#[cfg(test)]
mod form_tests;
#[cfg(test)]
mod instance_tests;
pub mod machines;
#[cfg(test)]
mod part_tests;
#[cfg(test)]
mod porting;
#[cfg(test)]
mod tests;
#[cfg(test)]
mod tri_edits;
mod verdict;

pub use edits::{Edit, Mend, edited};
pub use verdict::{Verdict, verdict_of};

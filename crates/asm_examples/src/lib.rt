//! Recognising and printing by example: transfers and machines as texts, with answers worked out by hand.
//!
//! - `naming`: whether the values of an instance have names on a line, so that it can be printed.
//! - `telling`: the row that is recognised, what stands in its holes, and its line of assembly.
//!
//! Of the tests `accepted` has the machines, and says how a test stays cheap to prove; `cases` and `line_cases` are the tables.
#![tactic(auto)]

#[cfg(test)]
mod accepted;
#[cfg(test)]
mod cases;
#[cfg(test)]
mod line_cases;
#[cfg(test)]
mod line_tests;
mod naming;
mod telling;
#[cfg(test)]
mod tests;

pub use naming::{are_named, is_named};
pub use telling::{Told, Trouble, told_by, told_in, told_of};

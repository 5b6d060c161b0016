//! Reads the text of a machine description into its rows, with each mode replaced by its alternatives.
//!
//! `read_description` gives the description that an accepted text says, or the least of rules 1 to 14 that the text breaks, at its
//! least line. Rules 1 to 3 are of lines alone; the others are of what the lines declare, and stand in the order of their numbers.
//!
//! - `refused`: the reason that is told.
//! - `told`: which rule is told of what a text declares.
//! - `names`, `numbers`, `rows`, `described`: the description.
//! - `reader`: whole texts.
#![tactic(auto)]

mod described;
mod names;
mod numbers;
mod reader;
mod refused;
mod rows;
mod told;

pub use reader::read_description;

//! Whether rows of a machine description overlap, so that a line of assembly could be read as either.
//!
//! Two rows overlap where they have as many tokens and at each position some token fits both (`Overlap` of specs/Overlap.antt). In a
//! description without overlapping rows a line of assembly is one instruction at most.
#![tactic(auto)]

mod holes;
mod pieces;
mod rows;
mod told;

pub use rows::overlaps;
pub use told::{Overlapping, first_overlap};

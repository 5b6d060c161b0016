//! Rows of a machine description: lines of assembly with holes, paired with the transfers that they make.
//!
//! A description pairs each line of assembly with a register transfer. This crate has what a description is once it is read
//! (`RawDescription`), what may stand in the hole of a row (`fits` of specs/Fits.antt), and what an instruction is: an instance, which
//! is a row with its holes filled, has the tokens of a line and makes a transfer (specs/Instances.antt).
#![tactic(auto)]

mod description;
mod instance;
pub mod laws;
mod print;
mod row;

pub use description::{FlagName, RawDescription, Register, Role};
pub use instance::{Binding, Bound, Instance};
pub use print::number_of_word;
pub use row::{Hole, Piece, Row};

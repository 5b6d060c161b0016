//! Whole assembly texts: the program of a text that keeps the rules, and what is told of one that doesn't.
//!
//! - `program`: the program, made of the names, labels, instances and data that the crates below read.
//! - `reading`: the program of a text, or the line and the rule that it breaks.
//!
//! specs/Read.antt says which texts these are. That what is made is the program of the text, and that it is a program at all, is shown in
//! proofs/: Whole joins the parts, Different has that labels differ, and Placed that each label that is named stands somewhere.
#![tactic(auto)]

mod program;
mod reading;

pub use program::program_of;
pub use reading::{AsmFault, read_text};

//! The instances of the lines of an assembly text that keeps the rules, where each of its labels has a number.
//!
//! - `binding`: the instance of one line.
//! - `lines`: those of a text, in order.
//!
//! specs/Known.antt says which lines and texts these are, and which instance is that of a line.
#![tactic(auto)]

mod binding;
mod lines;

pub use binding::instance_of;
pub use lines::lines_of;

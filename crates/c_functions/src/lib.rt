//! The functions of a file, by their headings (C11 6.7.6.3, 6.9.1): which name is defined where, the types of all functions,
//! and the rules that a heading and its parameters break.
#![tactic(auto)]

mod definitions;
mod file;
mod headings;
mod parameters;
mod signatures;

pub use definitions::{Definitions, all_definitions};
pub use file::{File, with_heading, with_include};
pub use headings::{has_main, tell_heading};
pub use parameters::{Params, Place, with_parameters};
pub use signatures::all_signatures;

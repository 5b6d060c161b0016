//! The lines of a linked program, function by function.
//!
//! `push_start` writes the start; `push_code` a function: its entry, its blocks and its returns. What the lines make is what
//! `Linked.antt` of link_code says, with the transfers of the rows that were found (specs/Glue.antt).
#![tactic(auto)]

mod codes;
pub mod law;
mod lines;
mod steps;

pub use codes::linked_lines;
pub use lines::{Written, push_code, push_start};

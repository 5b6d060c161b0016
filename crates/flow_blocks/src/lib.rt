//! Where the flow goes in the code of a function.
//!
//! A [`Flow`] has for each block, by position, the blocks that may come next and those from which it may be reached: just those that
//! `successors` of temp_machine gives.
//!
//! - `jumps`: the label to which a transfer jumps.
//! - `labels`: the position of each label.
//! - `successors`, `predecessors`: the two sides of a flow.
//! - `flows`, `making`: what a flow is, and the flow of a code.
#![tactic(auto)]

mod flows;
mod jumps;
mod labels;
mod making;
mod predecessors;
mod successors;

pub use flows::{Flow, Next};
pub use making::flow;

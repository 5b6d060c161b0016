//! Which rule an assembly text breaks, and at which line, or that it keeps them all.
//!
//! - `positions`: what is counted before a line.
//! - `instructions`, `checking`: the rule that a line breaks.
//! - `faults`: the line and the rule that are told.
//!
//! specs/Counts.antt has what is counted, and specs/Checks.antt what is checked of a line and what is told.
#![tactic(auto)]

mod checking;
mod faults;
mod instructions;
mod positions;

pub use faults::{Told, fault_of};

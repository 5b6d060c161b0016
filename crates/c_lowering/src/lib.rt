//! Lowering: operators that a machine lacks become calls of helpers.
//!
//! `specs/` says what a typed tree is lowered to (Lowering): an operator between two operands becomes a call with them as
//! arguments, a compound assignment keeps its node and computes by the helper, and behind the program's functions stand the
//! helpers of the operators that are lowered. The crate promises that the lowered program does what the program does.
#![tactic(auto)]

mod laws;

pub use laws::{frames_stay, lowered_does_the_same, none_is_left};

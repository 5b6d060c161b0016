//! That the operations of naive code can be made: their numbers fit the shapes, and each label is opened once.
#![tactic(auto)]

pub mod laws;

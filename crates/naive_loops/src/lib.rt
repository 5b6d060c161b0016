//! The loops of naive code.
//!
//! The functions of this crate have no code. specs/Loops.antt says which operations are a loop's, and that what is built from them has the
//! loop.
#![tactic(auto)]

pub mod laws;

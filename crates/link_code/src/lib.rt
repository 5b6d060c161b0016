//! The routines of a program linked to one program of a machine, and that it does what they do on the machine that runs them.
//!
//! Linking writes a start, and for each function an entry, its blocks and its returns. The law says that the machine's run of these lines
//! is the routines' run, on each input on which that never fails, with a link register as well as where a call pushes the place to return to.
#![tactic(auto)]

pub mod examples;
pub mod laws;

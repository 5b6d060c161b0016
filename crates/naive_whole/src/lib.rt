//! Naive code does what its source does, as a whole program.
//!
//! The law of `laws` is the end of the proofs on naive code: main's run, which naive_function has, joined with the values of the objects
//! of the file as they stand before it, and with the machine that runs a block a step. `examples` has a program that meets all of its
//! premises.
#![tactic(auto)]

pub mod examples;
pub mod laws;

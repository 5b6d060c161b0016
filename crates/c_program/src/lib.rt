//! The reading of statements and programs from the tokens of a C source (C11 6.8 and 6.9), by one
//! token of lookahead.
//!
//! `read` gives the tree of the program that the tokens spell, or the first token that continues
//! no program or stands deeper than 200. It equals a reading that is defined on lists of words by
//! one step that is no recursion, and by a bound on the calls; the bound that it takes never runs
//! out. The recursion of the code is bounded by the nesting, and lists are read by loops.
#![tactic(auto)]

mod program;
mod statements;

pub use program::read;

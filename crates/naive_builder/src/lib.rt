//! The code of a function, built operation by operation.
//!
//! A `Builder` holds what is emitted so far: finished blocks, the open block, the home of each temporary and the next label. Each method
//! appends one operation of naive code, by the instructions of the described machine that the table of its rows names; where there are
//! several ways to do it, by the first that the description covers (specs/Appending). What was built from an empty block on, each label
//! opened once, does the operations place by place (specs/Finished).
//!
//! - `builder`: the code as far as it is emitted.
//! - `coverage`: which shapes the rows cover.
//! - `instructions`: the transfers of shapes that are appended.
//! - `plain`: operations of one transfer.
//! - `choices`: operations that go by what the description covers.
//! - `ends`: the ends of blocks.
//! - `laws`: finished code does the operations.
#![tactic(auto)]

mod builder;
mod choices;
mod coverage;
mod ends;
mod instructions;
pub mod laws;
mod plain;

pub use builder::Builder;

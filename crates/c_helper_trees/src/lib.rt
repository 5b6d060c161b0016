//! The helpers as functions of the typed tree, and what a run of them does.
//!
//! `specs/` has the tree of each part of a helper's code (Trees). The crate promises that a call of a helper gives, in any
//! program, what its operator gives, and what its frame takes.
#![tactic(auto)]

mod laws;

pub use laws::{helper_calls, helper_frames, helpers_take_nothing};

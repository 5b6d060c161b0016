//! Typed trees within the limits meet what `expand` asks of a tree, where the description has their operators (specs/Laws.antt).
//!
//! The functions of this crate have no code.
#![tactic(auto)]

pub mod laws;

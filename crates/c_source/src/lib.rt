//! The tree of a C source.
//!
//! `tree_of` gives the one tree that a text spells (C11 6.4 to 6.9), or it tells the first place
//! where the text breaks a rule of the tokens, or else of the grammar. No text has two trees, or
//! a tree and a reason to refuse it.
#![tactic(auto)]

pub mod law;
mod source;

pub use source::tree_of;

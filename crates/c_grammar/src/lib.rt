//! The grammar of C (C11 6.5 to 6.9): which tree a list of tokens spells.
#![tactic(auto)]

mod sign;

pub use sign::{Sign, sign_of};

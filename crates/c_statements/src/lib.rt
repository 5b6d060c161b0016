//! The walk over statements (C11 6.8): their typed trees, with scopes that are left as they were entered, and the first rule
//! that is broken in them.
#![tactic(auto)]

mod statements;

pub use statements::sequence;

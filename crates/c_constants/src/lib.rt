//! Constant expressions (C11 6.6): the operators of C on words, and the value that a typed expression has at
//! compile time.
#![tactic(auto)]

mod fixed;
mod operators;

pub use fixed::{Fixed, constant_value};
pub use operators::as_type;

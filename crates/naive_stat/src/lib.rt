//! The operations that statements and functions become.
//!
//! `naive_code` says which; here they are made, as a list of `Op` of `naive_expr`.
//!
//! - `declarations`: initialisers; `optional`: expressions and tests that may be absent.
//! - `cases`: what a switch has to know of the cases in its block.
//! - `statements`: the walk over the typed tree.
//! - `functions`: a whole function.
#![tactic(auto)]

mod cases;
mod declarations;
mod functions;
mod optional;
mod statements;

pub use functions::{expand_function, scalars_of};

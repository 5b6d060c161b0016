//! Rule 51 of sources: an operator that the description lacks, at the first token of the first expression that has one.
//!
//! A description has `+`, `-`, `|`, `&` and comparisons, and may have `*`, `/`, `%`, shifts and `^`. `lacks` walks a typed tree once,
//! and takes no memory.
//!
//! - `operators`: whether an operator of C is among those of a set.
//! - `expressions`, `statements`: what is told of each.
//! - `laws`: what the set of a description's operators stands for.
#![tactic(auto)]

mod expressions;
pub mod laws;
mod operators;
mod statements;

pub use statements::lacks;

//! A machine that runs prepared code over a source and a sink: the calls of `machine_step` with the same promises, and a faster body.
//!
//! - `making`: one instruction, in a common form or by its transfer. - `stepping`: steps, one or many.
#![tactic(auto)]

mod making;
mod stepping;

pub use stepping::{run, step};

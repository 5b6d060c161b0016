//! A machine that runs over a source and a sink, one instruction after another.
//!
//! - `running`: what a machine is between two instructions, and why it stops.
//! - `stopping`: the last write. - `making`: one instruction. - `stepping`: steps, one or many.
//!
//! specs/Steps.antt says what a step comes to, specs/Runs.antt that steps are the definition's run on the bytes that were taken and all that
//! may follow them, so that calls may follow each other.
#![tactic(auto)]

mod making;
mod running;
mod stepping;
mod stopping;

pub use making::make_line;
pub use running::{Running, Stop};
pub use stepping::{run, step};
pub use stopping::trapped;

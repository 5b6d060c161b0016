//! What a source does: the run of its typed tree, with storage by name.
//!
//! `specs/` reads beside C11: Operators (6.5), Parts (what a part of a run comes to), Expressions and Statements (one
//! equation for each node of the tree, 6.5 and 6.8) and Run (calls, `main`, the whole). For each bound n on the turns of a loop and on the
//! depth of calls the run shows what was printed, and whether the source goes on, ended, did something undefined
//! (acts U1 to U7, each with its place) or passed its stack. What a call takes of the stack is given as a
//! function of the callee, and `setting_of` says what it is on a machine: the frame of `c_limits`, and a word.
//!
//! The crate promises that this is a run, in the sense in which `Same` and `Keep` speak of runs, that operators give what
//! they give in constant expressions, and what small programs do.
#![tactic(auto)]

mod laws;
mod worked;

pub use laws::{
    ended_is_clean, ends_stand, failures_stand, operators_agree, output_grows, source_is_run,
};
pub use worked::{call_acts, conversions, loops, object_acts, operator_acts, orders};

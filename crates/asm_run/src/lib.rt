//! Assembly texts run: from the bytes of a text and an accepted machine to what is read, printed and answered.
//!
//! - `running`: `run_text`.
//!
//! specs/Runs.antt says what a run of a text comes to, by the words of `rtl_machine`.
#![tactic(auto)]

mod running;

pub use running::run_text;

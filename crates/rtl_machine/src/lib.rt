//! The machine of a description: a program that was loaded runs over a source and a sink.
//!
//! - `linking`: bindings with numbers in place of names. - `loading`: memory and code of a program. - `machine`: `Machine`, with `load`,
//!   `step` and `run`. - `law`: which programs can be loaded.
//!
//! `code_of` of specs/Loading.antt is the program as the definition of a run sees it. After `load` the machine has run it for no turn
//! (`IsLoaded`); a call of `step` or `run` says how far the run has come on the bytes that the call took, and all that may follow them. A
//! call of `run` right after `load` comes to what the definition's run comes to on all the input that was left (`RunsFrom` of
//! specs/Whole.antt).
#![tactic(auto)]

pub mod law;
mod linking;
mod loading;
mod machine;
mod parts;

pub use machine::Machine;
pub use machine_step::Stop;

//! The instructions that linking adds: the start, and the entries and returns of functions.
//!
//! `added_instance` gives the instruction that the row of a shape makes at a number and a label. It is a function of these (specs/Added.antt), so
//! that two lines at the same number are the same.
#![tactic(auto)]

mod added;
mod figures;

pub use added::added_instance;

//! The names of the labels of an assembly text that keeps the rules: of objects, which stand in the data part, and of functions.
//!
//! specs/LabelNames.antt says which names these are.
#![tactic(auto)]

mod names;

pub use names::names_of;

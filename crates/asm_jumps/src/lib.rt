//! The labels of the text part of an assembly text that keeps the rules, with the numbers of their instructions.
//!
//! specs/LabelPlaces.antt says which labels these are.
#![tactic(auto)]

mod places;

pub use places::labels_of;

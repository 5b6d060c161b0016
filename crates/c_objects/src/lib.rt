//! Declarations of objects in blocks (C11 6.7): sizes, initialisers and constants.
#![tactic(auto)]

mod at;
mod objects;
mod sizes;
mod values;

pub use at::{Functions, expression_at, value_at};
pub use objects::locals_of;
pub use sizes::{constant_of, extent_of, is_absent, is_full, length_of, sized, tell_unless};

//! The transfers of instances: rows of a description with values in their holes.
//!
//! `effects_of` gives the transfer that an instance of an accepted description makes, `effects_with` of md_rows' specs/Instances.antt.
//!
//! - `filling`: trees, places and rows with values in their holes.
//! - `instances`: instances of a description.
#![tactic(auto)]

mod filling;
mod instances;

pub use filling::{fill_row, filled};
pub use instances::effects_of;

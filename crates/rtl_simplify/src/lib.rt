//! Trees and transfers brought to normal form in place.
//!
//! [`normalise`] leaves the normal form of a tree, by the rules N1 to N13 of `rtl_norm`, without memory: nodes are taken out
//! and put back in other places, and none is made.
#![tactic(auto)]

mod folding;
mod moves;
mod rules;
mod steps;
mod transfers;

pub use steps::normalise;
pub use transfers::normalise_effects;

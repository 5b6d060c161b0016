//! Typed trees are sound as naive expansion takes them: each value has the type that its place wants, and nothing is left by what
//! leads nowhere. None names an array but by its elements, so its code is within its weight.
#![tactic(auto)]

mod law;

pub use law::{typed_is_sound, typed_is_within_weight, typed_names_scalars};

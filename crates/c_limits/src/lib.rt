//! How much a source asks of a machine, and the limits on it.
//!
//! A function's frame is what its calls take of the stack, its weight no less than the transfers of its plain code. Both are sums
//! over the typed tree: `specs/` has depths, frames and weights, an equation for each node. `within` tells the first limit that is
//! passed: a frame above 32,000 bytes (rule 41), a weight (rule 42), or too many statics (rule 43).
//!
//! No call takes memory, and each walks the tree once. A sum from `2^64 - 1` on stops there.
#![tactic(auto)]

mod depth;
mod frame;
mod limits;
mod weight;

pub use depth::{Needs, needs_of};
pub use frame::{element_bytes, frame_of, object_bytes};
pub use limits::within;
pub use weight::weight_of;

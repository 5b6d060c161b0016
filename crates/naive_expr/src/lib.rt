//! The operations that expressions become.
//!
//! `naive_code` says which; here they are made, as a list of `Op`, with the temporaries and labels that they take. Which transfers of a
//! described machine do them is chosen later. A number for which there is no room is answered as want of memory.
//!
//! - `operations`: the types; `emission`: operations as they are appended.
//! - `sites`: where objects are kept; `objects`: what reads them and assigns to them; `places`: the left sides of assignments.
//! - `operators`, `calls`: what is made of values that are evaluated.
//! - `expressions`: the walk over the typed tree.
#![tactic(auto)]

mod calls;
pub mod emission;
mod expressions;
mod objects;
pub mod operations;
mod operators;
mod places;
mod sites;

pub use emission::{Emitter, Jump};
pub use expressions::{expand_test, expand_value};
pub use objects::{push_put, push_store};
pub use operations::{Op, Stop};
pub use sites::{Base, Site, Storage, element_bytes, word_bytes};

//! The walk over a source's expressions (C11 6.5): their typed trees, and the first rule that is broken in them.
#![tactic(auto)]

mod expressions;
mod scene;

pub use expressions::{as_value, expression};
pub use scene::Scene;

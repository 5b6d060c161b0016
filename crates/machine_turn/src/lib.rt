//! One transfer on registers, flags and memory: each side and address is evaluated in the old state, the first trap counts, and nothing
//! is assigned before all of them were evaluated.
//!
//! - `held`: what a machine holds. - `memory`, `values`: the value of a tree. - `assigned`, `evaluating`: the assignments of a transfer,
//!   evaluated. - `making`: a transfer, tested or made.
//!
//! No condition of well-formedness is needed here: where two assignments go to one cell, the first counts, as in the definition of a
//! transfer's effect.
#![tactic(auto)]

mod assigned;
mod evaluating;
mod held;
mod making;
mod memory;
mod values;

pub use assigned::{Assigned, Outcome, Stored};
pub use held::Held;
pub use making::{make, store, takes_input, test};

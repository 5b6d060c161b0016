//! The values of transfer trees.
//!
//! A [`State`] holds what a tree may read, and [`value`] evaluates a tree in it: the result is a word or the first trap, the left
//! operand before the right, a bad address before a misaligned one. The definition is `value_of` in `specs/Values.antt`, and the call is
//! equal to it on every tree that has a value or a trap there. The laws in `specs/SubstitutionLaws.antt` say what a substitution does to a value.
#![tactic(auto)]

mod conditions;
mod evaluation;
mod laws;
mod state;

pub use conditions::{is_readable, is_sound};
pub use evaluation::{apply_binary, value};
pub use laws::substitution_is_setting;
pub use state::{Bytes, FlagPair, Flags, LabelAt, Labels, State, Trap, Words};

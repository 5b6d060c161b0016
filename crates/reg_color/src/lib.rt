//! Registers for the temporaries of a code.
//!
//! - `colouring`: gives each temporary a register or leaves it in its home, by what is live where (live_machine, color_graph).
//! - `blocks`, `codes`: put these registers in, and loads and stores for the temporaries in their homes (color_homes).
#![tactic(auto)]

mod blocks;
mod codes;
mod colouring;

pub use codes::{apply_by, apply_colours};
pub use colouring::colour;

//! Code with temporaries, as the passes between the source and the assembly text hold it.
//!
//! The code of a function is a list of basic blocks of transfers; each transfer is kept with the instruction of the described machine that
//! makes it. Contracts see lists and trees without addresses. What code does is said of its transfers alone: specs/Routines.antt has the
//! routine of a code and the image of a unit, which temp_machine runs. specs/Realised.antt says when each transfer is that of its instruction.
//!
//! - `code`: the types.
//! - `copies`: a copy has the same contents.
#![tactic(auto)]

mod code;
mod copies;

pub use code::{Block, Code, End, LoopMark, Transfer, Unit};
pub use copies::{copy_code, copy_effects, copy_transfer};

//! The text of transfers: its tokens, what spells a transfer, how tokens are read, and the laws of both.
//!
//! - `signs` and `holes`: the marks of a text, and the holes that a reader may fill.
//! - `senses`: what a token says to a reader.
//! - `law`: printing and reading are inverse, a text spells at most one transfer, and a fault has one place.
//!
//! `specs/Tokens.antt` says which bytes spell a token and to which tokens a text falls apart, `specs/Spelling.antt` which tokens spell a
//! transfer, `specs/Faults.antt` where a text that spells none goes wrong, `specs/Printing.antt` what is printed, `specs/Reading.antt` how
//! tokens are read with one token of lookahead, and `specs/Contract.antt` what a reader of texts owes.
#![tactic(auto)]

mod holes;
pub mod law;
mod senses;
mod signs;

pub use holes::OpenHole;
pub use senses::{Bank, Sense};
pub use signs::Sign;

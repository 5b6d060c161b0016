//! The text of transfers, read; and the front of what prints and reads it.
//!
//! A well-formed transfer has one spelling, as `r[1] = (r[1] + 4); f[0] = lost`, which `print_transfer` appends and `read_transfer`
//! decides; `read_holed` decides it with holes, as `<h>`. What spells a transfer, where a text that spells none goes wrong, and the
//! reading with one token of lookahead are definitions of `rtl_spelling`; the program here is proved to do just that. The parts of the
//! reading, `lex`, `tree` and `item`, serve texts that hold trees and transfers.
//!
//! - `trees`, `moves` and `gathering`: the reading of tokens by recursive descent, with at most 32 trees one in the other.
//! - `said`: what an assignment says.
//! - `calls`: the public calls of reading.
//!
//! `specs/Answering.antt` says what the calls of reading owe: the transfer that the text spells, or the first fault and its place;
//! and that they answer just what the text spells where it spells assignments.
#![tactic(auto)]

mod calls;
mod gathering;
mod moves;
mod said;
mod trees;

pub use calls::{read_holed, read_transfer};
pub use gathering::item;
pub use rtl_print::print_transfer;
pub use rtl_spelling::{OpenHole, Sign};
pub use rtl_token::{Context, TextFault, Token, Trouble, lex};
pub use said::Assignment;
pub use trees::tree;

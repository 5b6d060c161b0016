//! The tokens of a text that holds trees and transfers.
//!
//! `lex` gives the tokens of a text, `sense_of` what a token says, and `place` where the last of some tokens begin. What the tokens of a
//! text are, and what they say, are definitions of `rtl_spelling`.
//!
//! - `lexing` and `token`: the tokens of a text by longest match, or the byte that begins none.
//! - `context`, `senses`, `words`, `number` and `leaves`: what a token says, by a word's bits, names and holes.
//! - `cursor`: the first token of many, and those behind it.
//! - `trouble` and `places`: why reading stops, and where; `fault`: why a text is refused.
#![tactic(auto)]

mod context;
mod cursor;
mod fault;
mod leaves;
mod lexing;
mod number;
mod places;
mod senses;
mod token;
mod trouble;
mod words;

pub use context::Context;
pub use cursor::{expect, head_of, index, is_sign, rest_of, wrong};
pub use fault::TextFault;
pub use leaves::leaf_at;
pub use lexing::lex;
pub use places::{place, settled};
pub use senses::sense_of;
pub use token::Token;
pub use trouble::Trouble;

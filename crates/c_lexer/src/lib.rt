//! The lexer of C (C11 6.4), for a source without string literals and preprocessing but the line
//! `#include <stdio.h>`.
//!
//! `lex` gives the tokens of a source with their places, and the end of the text as a last token;
//! or it tells the first rule that the source breaks, at the first byte of what breaks it. The
//! source is spelled by pieces alone, each of which is a blank, a comment or a token; a name, a
//! number and a mark are as long as they can be. No source has two lists of tokens, or a list and
//! a fault.
#![tactic(auto)]

mod bytes;
mod constants;
pub mod law;
mod lexing;
mod line;
mod piece;
mod place;
mod rule;
mod words;

pub use lexing::lex;

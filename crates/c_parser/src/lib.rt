//! The parser of C (C11 6.5 to 6.9).
//!
//! `parse` gives the one tree that tokens spell, or it tells the first token that continues no
//! program (rule 5) or stands deeper than 200 (rule 6), whichever comes first. Tokens are spelled
//! by at most one tree.
#![tactic(auto)]

pub mod law;
mod parser;

pub use parser::parse;

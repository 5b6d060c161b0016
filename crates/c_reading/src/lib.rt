//! The reading of expressions from the tokens of a C source (C11 6.5), by one token of lookahead, and
//! the steps over tokens of which all readings are made.
//!
//! Each function equals a reading that is defined on lists of words by one step that is no
//! recursion, and by a bound on the calls: it gives what the tokens spell, how deep the next token
//! stands and the tokens that are left, or the first token that continues no program or stands
//! deeper than 200. The recursion of the code is bounded by the nesting, and lists are read by loops.
#![tactic(auto)]

mod expressions;
mod fault;
mod nodes;
mod tokens;
mod trees;

pub use expressions::{assignment, conditional, expression, type_words};
pub use fault::Fault;
pub use nodes::{push, unboxed};
pub use tokens::{eat, expect, more, name, name_if_any, peek, place};
pub use trees::begins_declaration;

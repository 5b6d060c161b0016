//! The types of the C front end: tokens with their places, and the trees that are made of them.
//!
//! It has plain data, which the contracts of the lexer, the parser, the typing and the passes compare
//! as a whole, what each of them asks of a node, and the inductions over both trees that their proofs
//! cite.
#![tactic(auto)]

mod fault;
pub mod syntax;
mod token;
pub mod typed;
mod types;

pub use fault::CFault;
pub use syntax::Syntax;
pub use token::{At, Token, TokenKind};
pub use typed::{Function, Object, Stat, Static, Typed, TypedExpr};
pub use types::CType;

//! The tokens of assembly lines, on which descriptions and assembly text stand.
//!
//! - `token`: `Token`, `token_at` (the longest token with which a text begins, exactly, or that
//!   none begins there) and `push_token`.
//! - `law`: a text spells at most one list of tokens, and a written line reads back.
//!
//! `specs/Tokens.antt` says which bytes spell a token and which tokens a text spells, and
//! `specs/Line.antt` where the writer puts spaces. `proofs/Steps.antt` has what a caller needs
//! that reads a text token by token: what a token, a gap, the end and a byte that begins no
//! token tell of the tokens that the whole text spells.
#![tactic(auto)]

pub mod law;
pub mod token;

//! The reading of declarations from the tokens of a C source (C11 6.7), by one token of lookahead.
//!
//! As for expressions (`c_reading`), each function equals a reading that is defined on lists of words.
#![tactic(auto)]

mod declarations;

pub use declarations::{Opening, declaration, open_declaration};

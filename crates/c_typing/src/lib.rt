//! Typing as a definition: the typed tree of a source, and which of the rules 11 to 34 it breaks at which places
//! (C11 6.2, 6.3.1 and 6.5 to 6.9).
//!
//! `specs/` goes by the clauses of the standard: expressions, statements and declarations, the file. Each syntax has one
//! typed tree or none, and a tree of faults; of these the one at the least place, and there the least rule, is told. Here
//! stand the types that the definition shares with the code, and the laws of the definition alone.
#![tactic(auto)]

mod law;
mod names;

pub use law::{first_is_told, has_tree, none_is_told};
pub use names::{Around, Extent, Fault, Meaning, Signature, Typing, Usage};

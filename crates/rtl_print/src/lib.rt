//! Transfers printed as text.
//!
//! A well-formed transfer has one spelling, as `r[1] = (r[1] + 4); f[0] = lost`. `rtl_spelling` says which; `print_transfer` appends it.
//!
//! - `bytes`: the bytes of marks and words.
//! - `numbers`: the signed reading of a word.
//! - `context`: a word's bits and the names.
//! - `trees`: the printing of trees; `printing`: of assignments, and the public call.
#![tactic(auto)]

mod bytes;
mod context;
mod numbers;
mod printing;
mod trees;

pub use bytes::sign_bytes;
pub use printing::print_transfer;

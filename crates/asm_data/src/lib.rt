//! The data of an assembly text that keeps the rules: the address of each object, and the bytes.
//!
//! - `numbers`: the bytes of a number.
//! - `bytes`: what a line of the data part adds to the bytes before it.
//! - `data`: the addresses and the bytes of a data part.
//!
//! specs/Data.antt says which data part a text is.
#![tactic(auto)]

mod bytes;
mod data;
mod numbers;

pub use data::{Data, data_of, data_part};

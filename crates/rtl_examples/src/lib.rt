//! Transfers from text to text: read, brought to normal form and printed.
//!
//! [`normal_text`] puts the crates of transfers together. Its tests are the worked examples of the rules of the normal form, of
//! substitution, and of rows with holes. `proofs/Printable.antt` has the law that what a text without holes spells can be printed,
//! and so can its normal form.
#![tactic(auto)]

mod rewriting;
#[cfg(test)]
mod tests;

pub use rewriting::normal_text;

//! Assembly texts by example (tests): texts that are refused, with the line and the rule that are told, texts that are read, with what
//! their programs hold, each worked out by hand from the rules.
//!
//! - `loading`: a machine with the program of a text. `steps`: what its steps answer.
//! - `machines`: the pdp11 and the mips, accepted once for a test.
//! - `refused_pdp11`, `refused_mips`, `kept`: the tables, with rows of plain literals.
//! - `tests`: the tests, which go over the tables by reference. `limits`: texts that are too long for a table.
//! - `printing`: texts that are read and printed; `prints`: what is printed of some.
#![tactic(auto)]

#[cfg(test)]
mod kept;
#[cfg(test)]
mod limits;
mod loading;
#[cfg(test)]
mod machines;
mod printing;
#[cfg(test)]
mod prints;
#[cfg(test)]
mod refused_mips;
#[cfg(test)]
mod refused_pdp11;
#[cfg(test)]
mod steps;
#[cfg(test)]
mod tests;

pub use loading::loaded;
pub use printing::reprinted;

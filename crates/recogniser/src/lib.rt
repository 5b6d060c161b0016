//! The recogniser: the first instruction of a machine that does a transfer.
//!
//! `recognise` goes through the rows of an accepted description in order and gives the first that does the transfer, with its first
//! binding; None comes exactly where none does (`IsFirst`, `DoesTransfer` of specs/Recognising.antt). Which binding of a row is its first
//! is said by lists of choices (specs/Choices.antt): which of the row's assignments is taken, and where operands are swapped.
//!
//! - `binding`: from what stands in a row's holes to a binding.
//! - `flags`: the flags of a set of cells.
//! - `laws`: at most one instance is the first.
//! - `rows`: the search through the rows.
#![tactic(auto)]

mod binding;
mod flags;
pub mod laws;
mod recognising;
mod rows;

pub use recognising::recognise;

//! The front end of C by example: the tokens, the tree or the refusal of sources, each worked out by hand.
//!
//! Tests are proved, so their form decides what they cost. A table is a constant of rows that are plain literals; the type of its
//! rows has a [`rows::Row`], which owns one tree at most and answers `bool`; and the test is one call of `rows::check`. Trees are
//! compared by what they print on a [`page::Page`], which no call leaves early. A closure, an `assert_eq!` or a `?` in each test
//! would cost more than the row's own function.
#![tactic(auto)]

#[cfg(test)]
mod lexing;
#[cfg(test)]
mod longest;
#[cfg(test)]
mod nesting;
pub mod operators;
pub mod page;
#[cfg(test)]
mod places;
#[cfg(test)]
mod printed;
#[cfg(test)]
mod refusals;
pub mod rows;
pub mod sources;
#[cfg(test)]
mod trees;

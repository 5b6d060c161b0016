//! The rules of a description that are tests of its declarations.
//!
//! Most are tests of one line under those before it (`LineRule`); the heading has to be whole besides, and the registers have to have
//! certain roles. `least_line` gives the least line at which a rule of lines is broken. `told_before_transfers` and `told_of_holes`
//! give the first broken rule, with its least line, of those that come before the transfers of rows are looked at, and of those on the
//! use of holes behind them.
//!
//! - `names`, `known`: what is declared before a line, in tables, so that a text is walked once for each rule.
//! - `heading`, `uses`, `reserved`, `slots`, `roles`: the tests.
//! - `lines`, `told`: the least line, and the rule that is told.
#![tactic(auto)]

mod heading;
mod known;
mod lines;
mod names;
mod reserved;
mod roles;
mod slots;
mod told;
mod uses;

pub use lines::{LineRule, least_line};
pub use told::{told_before_transfers, told_of_holes};

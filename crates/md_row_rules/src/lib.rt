//! The rules of a description's rows once each mode has given way to its alternatives.
//!
//! `least_row_line` gives the least line from which a row came that breaks a rule: that its transfer is good, or that the row isn't too
//! large.
//!
//! - `transfers`: whether a row's transfer is good. Past 256 holes a row's transfer is only like the one that is meant, and is as good.
//! - `row_rules`: the rules, and the least line.
#![tactic(auto)]

mod row_rules;
mod transfers;

pub use row_rules::{RowRule, least_row_line};

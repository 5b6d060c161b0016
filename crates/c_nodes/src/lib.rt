//! Nodes of the typed tree over what is in them (C11 6.5, 6.8), with its conversions. What has a faulty part has no tree.
#![tactic(auto)]

pub mod expressions;
pub mod statements;

//! Reads trees and transfers with holes, as the rows and modes of a machine description have them.
//!
//! A hole, as `<h>`, may stand for a tree or a place. It is read as a register hole, numbered by the first place of its name in the list of
//! names that goes with the tree or transfer. Names and labels stand in neither, and trees are at most 32 deep.
//!
//! - `lexemes`: the tokens of a text.
//! - `holes`: the names of the holes in a text, and the leaves that they become.
//! - `names`: that no object and no function is mentioned.
//! - `labels`: whether a label stands in a tree or a transfer.
//! - `transfers` and `trees`: the transfer or tree with holes that a text spells.
//!
//! `open_transfer` and `open_tree` give what `md_text` says that the bytes spell, or show that they spell nothing.
#![tactic(auto)]

mod fault;
mod holes;
mod labels;
mod lexemes;
mod names;
mod transfers;
mod trees;

pub use fault::OpenFault;
pub use transfers::open_transfer;
pub use trees::open_tree;

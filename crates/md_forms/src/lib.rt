//! What the lines of a machine description say, as plain data.
//!
//! - `pieces`: the text of a row or mode: tokens, and holes with what they are for.
//! - `trees`: trees and transfers with holes, which are numbered by a list of names.
//! - `declarations`: what a line says, with the line's number.
//! - `rules`: the rules that a text may break.
//!
//! Contracts see each of these as what `md_text` calls it, by the functions of `specs/Seen.antt`.
#![tactic(auto)]

mod declarations;
mod pieces;
mod rules;
mod trees;

pub use declarations::{Declaration, Declared, Form};
pub use pieces::{Kind, Piece, Range, Slot};
pub use rules::{Rule, Told, number_of};
pub use trees::{OpenTransfer, OpenTree, Said};

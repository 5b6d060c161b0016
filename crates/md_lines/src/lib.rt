//! Lines and fields of a description's text.
//!
//! - `lines`: the lines of a text that say something, with their numbers, or the first bad line.
//! - `splits`: what follows a word, and the parts round a byte or a bar.
//! - `fields` and `names`: names, numbers and roles, and lists of names.
//! - `kinds` and `pieces`: the text of a row or mode as tokens and holes.
//!
//! Each answer is exactly what `md_text` says of these bytes: what is found is there, and what isn't found isn't there.
#![tactic(auto)]

mod fields;
mod kinds;
mod lines;
mod names;
mod pieces;
mod splits;

pub use fields::{is_name, number, role};
pub use kinds::{Kind, Range, Slot};
pub use lines::{Line, LineFault, Lines, read_lines};
pub use names::{NameFault, read_names};
pub use pieces::{Piece, PieceFault, read_pieces};
pub use splits::{after_word, before_word, split_at_bar, split_at_byte};

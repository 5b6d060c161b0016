//! The lines of an assembly text, what each of them says, and where each label stands first.
//!
//! - `splitting`, `saying`: the lines of a text, and what each says.
//! - `labels`: where each label stands first.
//!
//! specs/Seen.antt has what the program holds of a line as what the line says, and specs/Tables.antt what a table of labels tells.
#![tactic(auto)]

mod labels;
mod saying;
mod splitting;

pub use labels::{Labels, labels_of, part_after};
pub use saying::{Label, Said, is_skipped, said_on};
pub use splitting::split_line;

//! Whether the text of a machine description is accepted.
//!
//! `accept` reads a text and judges what it says, over the words that the text itself names; `verdict_line` is what is written of an
//! accepted one.
//!
//! - `accepted`: accepted descriptions of both word sizes.
//! - `line`: the line that is written.
#![tactic(auto)]

mod accepted;
mod line;

pub use accepted::{Accepted, accept};
pub use line::verdict_line;

//! Reads the lines of a machine description into what they declare.
//!
//! `read_declared` gives what a text declares, or which of rules 1 to 3 it breaks: a line with a byte that can't be printed, too long or
//! without its end; another version; a line of no form. What it gives is numbered as the rules behind these want it. `read_form` gives what
//! one line says, as `md_text` has it, or shows that the line says nothing.
//!
//! - `keywords`: the word with which a line begins.
//! - `owned`: names and pieces that outlive the text.
//! - `plain`: the lines of the heading, of registers, flags and classes.
//! - `bars`: the lines of rows and modes.
//! - `form` and `declared`: what any line says, and what the lines of a text declare.
//! - `text`: what a whole text declares.
#![tactic(auto)]

mod bars;
mod declared;
mod fault;
mod form;
mod keywords;
mod owned;
mod plain;
mod text;

pub use fault::FormFault;
pub use form::read_form;
pub use text::{ReadFault, read_declared};

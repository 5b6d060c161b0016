//! The text of a machine description: what each line says, which rule a text breaks, and the description that it says.
//!
//! A text is lines. Six of them are the heading; the others declare registers, flags, classes of registers, modes (ways to write an
//! operand, with what each means) and rows (lines of assembly with holes, with the transfers that they make).
//!
//! - `specs/Lines.antt`: the lines of a text, and which of them are skipped.
//! - `specs/Pieces.antt`: the text of a row or mode, which is tokens and holes.
//! - `specs/Forms.antt`: what a line says.
//! - `specs/Declarations.antt` and `specs/Numbered.antt`: what the lines of a text declare, and the numbers of these lines.
//! - `specs/Expansion.antt`: the rows, with each mode replaced by its alternatives.
//! - `specs/Heading.antt` and `specs/Rules.antt`: what breaks a rule.
//! - `specs/Accepted.antt`: the rule that is told, and the description that an accepted text says.
#![tactic(auto)]

pub mod laws;

//! Assembly texts: which bytes are a text of a described machine and of which program, and which rule is told of the others.
//!
//! - `program`: `Program`.
//! - `places`, `rules`: the parts of a text, and the rules.
//! - `law`: a line says one thing, a text of which a rule is told doesn't keep the rules, and a text has at most one program.
//!
//! specs/TextLines.antt says what the lines of a text are and what each says, specs/Places.antt where a line stands, specs/Rules.antt has
//! the rules, each a fact of one line, and which is told, and specs/Programs.antt the program of a text.
#![tactic(auto)]

pub mod law;
mod places;
mod program;
mod rules;

pub use places::{Part, Place};
pub use program::Program;
pub use rules::Rule;

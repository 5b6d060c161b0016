//! Lines of assembly: an instance of an accepted description is printed as a line, and a line is read as the instance that has it.
//!
//! - `line`: `LineBuf`, a line of at most 640 bytes.
//! - `printing`: `print_line`; `shown` has the token of a piece of a row's text, and `writing` the spaces between tokens.
//! - `lines`: `read_line`, which binds what stands in the holes of the row of a line, and adds the names that are new.
//! - `law`: the tokens of a line are those of one instance of an accepted description at most.
//!
//! specs/Answers.antt says what reading a line answers, and specs/Law.antt has the law.
#![tactic(auto)]

pub mod law;
mod line;
mod lines;
mod printing;
mod shown;
mod writing;

pub use line::LineBuf;
pub use lines::{LineFault, read_line};
pub use printing::print_line;

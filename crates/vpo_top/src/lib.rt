//! The whole of what the program does, between the words of the command line and the bytes that are written.
//!
//! `vpo` is the top call. It reads the words, and does what they ask for, or says on the error stream why it can't. Its contract is one
//! predicate, `IsAnswered` of specs/Answer.antt, over what is asked for, what lies outside before and after, and the outcome: each form
//! of the words has its judge there.
//!
//! - `request`: what the words ask for.
//! - `compiling`: `cc` fetches a description and a source, and writes the text that is compiled from them. The headline is that this
//!   text does on the described machine what the source does.
//! - `machines`: the accepted description in a file. `checking`: `check` fetches one, and writes that it is accepted, with its name, word size and number of rows.
//! - `running`: `run` fetches a description and an assembly text, and runs the text on the described machine.
//! - `showing`: `show` writes a description that comes with the program.
//! - `report`: the line on the error stream.
#![tactic(auto)]

mod checking;
mod compiling;
mod fetching;
pub mod laws;
mod machines;
pub mod report;
mod request;
mod running;
mod showing;
mod top;

pub use request::{Request, WordsFault, read_words};
pub use shipped::{MIPS, PDP11};
pub use top::vpo;

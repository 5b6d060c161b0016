//! Programs, printed as assembly texts.
//!
//! - `stops`: the labels and objects of a program in the order of their places.
//! - `marks`: the lines of labels and directives.
//! - `printing`: the parts of a text, and `print_text`.
//! - `law`: the lines of a program, as they are written, are a text of which it is the program.
//!
//! specs/Printable.antt says which programs have a text, specs/Layout.antt which lines are written for one, and specs/Written.antt the
//! bytes of a line.
#![tactic(auto)]

pub mod law;
mod marks;
mod printing;
mod stops;

pub use printing::print_text;

//! The passes of the compiler, in their order.
//!
//! - `compiled`: what is handed out, the code behind each pass and the program.
//! - `driver`: `compile`, from the typed tree of a source to the program of a described machine.
//! - `laws`: what one pass gives is what the next one asks, and together they keep what the source does.
//!
//! specs/Compiling has what is asked and what is promised; specs/Codes and Units what holds of naive codes and coloured units, and specs/Meaning
//! what their laws come to.
#![tactic(auto)]

mod compiled;
mod driver;
pub mod laws;

pub use compiled::{Compiled, Dump, Part, Pass};
pub use driver::compile;

//! The rows of a description without modes.
//!
//! A hole of a row that is for a mode gives way to each alternative of the mode. `expand` gives the rows that come of this, in order
//! and at most so many: the rows of a line stand together, and among them the last hole of the text changes fastest. Each has the text
//! of the row that is meant, and its transfer but for holes with numbers from 256 on. `passing_line` and `is_too_large` tell of such
//! rows which are too many or too large.
//!
//! - `scope`: what texts are read under, with the registers of each class and the alternatives of each mode ready to be found, as
//!   `registers` and `modes` gather them.
//! - `shown`, `fillings`: the text of a row without modes, and what may stand in place of a hole.
//! - `leaves`, `trees`, `meanings`: the trees that stand in place of holes.
//! - `moves`, `expanded`: transfers and rows with trees in place of holes.
//! - `product`: all rows in order.
//! - `counts`, `depths`, `sizes`: rows that are too many or too large.
//!
//! Of the proofs, `RegisterNumbers` (registers in range fit in 64 bits), `RowLimits` (what a row has that breaks no rule) and
//! `Unbroken` are for crates above.
#![tactic(auto)]

mod counts;
mod depths;
mod expanded;
mod fillings;
mod leaves;
mod meanings;
mod modes;
mod moves;
mod product;
mod registers;
mod scope;
mod shown;
mod sizes;
mod trees;

pub use counts::{MOST_ROWS, passing_line};
pub use expanded::Expanded;
pub use moves::Filled;
pub use product::expand;
pub use scope::Scope;
pub use shown::Shown;
pub use sizes::is_too_large;

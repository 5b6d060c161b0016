//! Whether a machine description is accepted.
//!
//! The rules of a whole description stand above those of its text: no two rows overlap, there is a general register more than any row
//! has register holes, and each shape from which code is put together is covered by one row. `specs/Accepted.antt` has these rules,
//! which of them is told, and which texts are accepted.
#![tactic(auto)]

mod checked;
pub mod laws;
mod normal;
mod registers;
mod shapes;

pub use checked::{Checked, Layout, OpSet, check, operators};

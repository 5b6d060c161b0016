//! The shapes of transfers that a machine description may have, as a fixed list, and the search for a row that does one.
//!
//! A shape is a transfer that leaves something open: registers, a number, a symbol or a label (`shape_moves` of specs/Shapes.antt).
//! Most of the shapes are those from which code is first put together; the last ten are operators that a machine may have.
#![tactic(auto)]

mod drawing;
mod figures;
mod patterns;
mod search;
mod table;

pub use figures::{Frame, does_shape};
pub use patterns::{Pattern, pattern_of};
pub use search::Subject;
pub use table::{SHAPES, Shape, ShapeTable, shapes};

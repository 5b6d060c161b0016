//! Whether a row of a machine description covers a shape: for all registers, numbers, symbols and labels of the shape.
//!
//! `Covers` of specs/Covers.antt is the definition, and `covers` decides it without listing values: it asks whether the row does the
//! shape with two temporaries and the first number, and for a shape with numbers whether the row's number holes have them all and no
//! number stands in the row where one of the shape's could.
#![tactic(auto)]

mod covering;
pub mod laws;
mod lines;
mod numbers;
mod openness;
mod ranges;
mod registers;

pub use covering::covers;
pub use lines::fits_line;
pub use registers::general_bits;

//! The transfers of shapes, as instructions of a described machine.
//!
//! `ShapeRows` has for each shape the row of the description that covers it. `transfer_of` gives the transfer of a shape at some operands:
//! the instance of that row, and its effect. Code is first put together of such transfers alone (specs/Elementary.antt).
//!
//! - `description`: the registers that shapes name.
//! - `figures`: the transfer of a shape.
//! - `instances`: the instance of a row that does a transfer.
//! - `laws`: a transfer of a shape does what the shape does.
//! - `places`: where a pattern stands in the list of the shapes.
//! - `rows`: the table of rows.
//! - `transfers`: the transfer of a shape by its instruction.
#![tactic(auto)]

mod description;
mod figures;
mod instances;
mod places;
mod rows;
mod transfers;

pub use figures::Operands;
pub use rows::ShapeRows;
pub use transfers::transfer_of;

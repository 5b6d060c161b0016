//! Transfer trees: what one machine instruction reads, computes and assigns.
//!
//! A register transfer is a list of parallel assignments of trees to cells or to memory. This crate has the types of trees, of
//! transfers, of the names that they mention and of sets of cells, with the calls that need no values: to take, copy, compare and
//! substitute trees, and to test whether a transfer is well formed. Contracts see an expression as a pure tree (`tree_of`), an
//! assignment as a move, and a transfer as the list of its moves.
#![tactic(auto)]

mod c_names;
mod cell_sets;
mod cells;
mod constructs;
mod copies;
mod expressions;
mod forms;
mod likeness;
mod memory;
mod substitution;
mod transfers;

pub use c_names::{Name, NameList, Names, is_name};
pub use cell_sets::CellSet;
pub use cells::{Cell, Lab, is_same, is_same_label};
pub use constructs::{Construct, are_flags_tested, is_free, is_free_below, is_root};
pub use copies::{copy, same, take};
pub use expressions::{BinOp, Expr, UnOp, Width};
pub use forms::{is_placed, is_to_memory, is_to_same_cell, is_within, well_formed};
pub use likeness::{alike, is_commutative};
pub use memory::NoMemory;
pub use substitution::substitute;
pub use transfers::{Assign, Effects, Place};

//! Naive expansion: from the typed tree of a source to code with temporaries.
//!
//! Each function becomes operations (naive_stat), and each operation the transfers of instructions of the described machine
//! (naive_builder). The objects of the file are laid out as bytes (naive_data). What the code does is what the source does: specs/Units has
//! the whole of what is promised, specs/Codes what is promised of one function.
//!
//! - `selection`: the transfers of operations.
//! - `homes`: the homes of temporaries.
//! - `frames`: the numbers of a function's frame.
//! - `functions`: the code of one function.
//! - `names`: the names of functions and objects.
//! - `units`: the whole.
#![tactic(auto)]

mod frames;
mod functions;
mod homes;
mod names;
mod selection;
mod units;

pub use units::expand;

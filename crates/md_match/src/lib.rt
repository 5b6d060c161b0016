//! Matching a row of a machine description with a transfer.
//!
//! A row *does* a transfer with a binding where each assignment of the transfer is alike one of the row's, filled, and the row's other
//! assignments do no harm (`Does` of specs/Does.antt). The search goes through the row's assignments and through the swaps of
//! operands in a fixed order, keeps what stands in each hole on the stack, and takes no memory. Proved of it: what it finds makes the
//! row do the transfer, it is what the first list of choices gives, and where it finds nothing no binding makes the row do it.
#![tactic(auto)]

mod acceptance;
mod fitting;
pub mod laws;
mod search;
mod slots;

pub use acceptance::{
    Demands, can_binary_trap, can_unary_trap, is_accepted, is_idle, names_none, occurs_filled,
};
pub use fitting::{fits, fits_at, has_bit};
pub use search::{Task, first_match};
pub use slots::{
    Marks, NO_MARKS, NO_SLOTS, Slots, is_same_binary, is_same_bound, is_same_unary, is_same_width,
    put,
};

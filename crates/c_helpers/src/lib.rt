//! The helpers: functions of two words that stand for operators which a machine lacks.
//!
//! There are nine, for products, quotients and remainders, shifts, and exclusive or. `specs/` has the small language
//! that they are written in, with its meaning on words (Code), the helpers (Helpers) and the operators that they
//! stand for (Operators): they use `+ - & |`, comparisons, and loops that make at most as many turns as a word has bits.
//! A product is gathered bit by bit, a quotient is made a bit a turn, and signs are taken off before and put on again.
//!
//! The crate promises that each gives what its operator gives, on all operands on which that is defined.
#![tactic(auto)]

mod laws;
mod operator;

pub use laws::{helpers_compute, helpers_fit};
pub use operator::Operator;

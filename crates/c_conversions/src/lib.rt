//! Conversions of C (C11 6.3.1): the types of operands and results, and conversions as nodes; and the first fault that is
//! told.
#![tactic(auto)]

mod constants;
mod tell;
mod types;
mod words;

pub use constants::{character, minus_one, number_type};
pub use tell::Told;
pub use types::{
    binary_type, compound_type, conditional_type, converted, is_mixed, is_no_place, is_void,
    is_void_beside, left_type, operand_type, promoted, right_type, same_type, type_of_words,
    unary_type,
};
pub use words::{is_macro, is_word};

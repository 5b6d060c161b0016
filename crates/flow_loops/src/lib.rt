//! The loops of the code of a function.
//!
//! [`loops`] lists the runs of blocks whose last one leads back to the first, which is entered from the block before it alone.
#![tactic(auto)]

mod looping;

pub use looping::loops;

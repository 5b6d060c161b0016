//! Registers and homes for the temporaries of a transfer.
//!
//! A temporary that has a register stands there; one that is in its home stands in a scratch register while its transfer is made. So a load
//! of its home is put before a transfer that reads it, and a store to its home behind one that sets it, each by an instruction of the
//! described machine. The transfer itself is made by its old instruction with registers in place of the temporaries.
//!
//! - `places`: where the temporaries of a code are.
//! - `spilled`: the temporaries of an instruction that are in their homes, and the registers in which they stand.
//! - `reading`: which temporaries a transfer reads and sets.
//! - `middles`: a transfer with registers put in.
//! - `spills`: loads of homes and stores to them.
//! - `putting`: all of it.
#![tactic(auto)]

mod middles;
mod places;
mod putting;
mod reading;
mod spilled;
mod spills;

pub use places::Places;
pub use putting::{push_operands, push_transfer};

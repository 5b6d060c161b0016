//! Transfers in common forms, prepared once and made many times: no tree is walked in a turn.
//!
//! - `forms`: the forms, and `Prepared`, a transfer in one of them or as it was. - `operands`, `flagged`, `preparing`: `prepare`. - `values`, `memory`: values
//!   and stores. - `making`, `flags`: a turn of a form.
//!
//! `moves_of` of specs/Forms.antt is all that a prepared transfer means: the list of its moves. `prepare` keeps them, and a turn makes
//! what `machine_turn` makes of them.
#![tactic(auto)]

mod flagged;
mod flags;
mod forms;
mod making;
mod memory;
mod operands;
mod preparing;
mod values;

pub use forms::{Address, FlagTo, FlagsTo, Form, Prepared, Source, Value};
pub use making::make_form;
pub use preparing::prepare;

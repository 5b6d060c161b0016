//! Typing of a source (C11 6.9): `type_program` gives the one typed tree of a source that breaks none of the rules 11 to 34,
//! and else the first fault: the least place, and there the least rule.
#![tactic(auto)]

mod functions;
mod program;
mod static_values;
mod statics;

pub use program::type_program;

//! What the walk over statements (C11 6.8) does beside going into them: statements without statements in them, what stands
//! before the body of a `for` or behind a `case`, and the typed statement behind the walk over what is in it.
#![tactic(auto)]

mod loops;
mod parts;

pub use loops::for_parts;
pub use parts::{
    Walked, behind_block, behind_case, behind_default, behind_do, behind_else, behind_for,
    behind_if, behind_switch, behind_while, broken_out, case_value, continued, declared, evaluated,
    returned,
};

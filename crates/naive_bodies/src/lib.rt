//! Each statement's code does what the statement does, up to a function's body.
#![tactic(auto)]

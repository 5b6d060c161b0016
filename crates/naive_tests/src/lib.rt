//! Tests and values that they choose between: what their code does.
#![tactic(auto)]

//! Assignments of all kinds: what their code does.
#![tactic(auto)]

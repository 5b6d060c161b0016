//! Calls, input and output: what their code does, where each call does what the source's does.
#![tactic(auto)]

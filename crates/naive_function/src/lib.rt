//! Naive code of functions: a function is called, its body is run, and its caller goes on.
#![tactic(auto)]

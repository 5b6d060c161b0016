//! Naive code of statements: what is asked of it, and statements that hold no loop, switch or declaration.
#![tactic(auto)]

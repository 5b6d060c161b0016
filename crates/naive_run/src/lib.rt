//! Naive code does what its source does: when code does the operations of a function, and the law.
#![tactic(auto)]

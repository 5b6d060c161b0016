//! How much naive code there is: no more transfers than the source weighs, and a home for each temporary among the slots of its function.
#![tactic(auto)]

pub mod laws;

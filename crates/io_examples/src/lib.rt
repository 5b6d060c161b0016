//! What lies outside, by example: objects in memory that fail when they are told to, whole files, and the descriptions that come with
//! the program.
#![tactic(auto)]

#[cfg(test)]
mod tests;

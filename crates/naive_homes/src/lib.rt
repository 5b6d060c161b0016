//! Naive code obeys the rule of homes.
//!
//! Temporaries that are live at once have different homes (specs/Homes.antt): a scalar has one of its own, and of the others no two of one
//! depth are live at once. What a transfer of a shape reads beside what it assigns to flags is in specs/Reading.antt; an accepted row may
//! lose a flag by what its target held, and such a flag is read nowhere.
#![tactic(auto)]

pub mod laws;

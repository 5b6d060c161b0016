//! A unit of naive codes is such as each pass over code with temporaries may ask.
//!
//! The functions of this crate have no code. specs/Trees.antt has what is asked of the tree, specs/Transfers.antt of which shapes the
//! transfers are, and specs/Units.antt what holds of the whole: it is an image; each code is sound and tidy, obeys the rule of homes and has
//! none in reserve; and it has no more transfers than its function weighs.
#![tactic(auto)]

pub mod laws;

//! Which temporaries of naive code may be live at once.
//!
//! Beside the scalars' temporaries naive code has a stack of values: at each place of a function at most one temporary of each depth of
//! evaluation is live. specs/Live.antt says operation by operation what is live at most, by what is live where the block of each label
//! begins, and specs/Function.antt that this can be said of each function.
#![tactic(auto)]

pub mod laws;

//! Which temporaries conflict, and registers for them.
//!
//! Two temporaries conflict where they are live at once; what is known of that is gathered in rows of bits, by what is dead at each place
//! ([`Graph`]). Then each temporary, in the order of their numbers, gets the first colour that no neighbour has got before it, and stays in its
//! home where it lives over a call or none is free. That is a sparing colouring (color_code).
//!
//! - `words`: rows of bits.
//! - `sharing`: what a transfer tells.
//! - `walking`: what blocks tell.
//! - `graph`: the conflicts of a code.
//! - `seating`: the colours.
#![tactic(auto)]

mod graph;
mod seating;
mod sharing;
mod walking;
mod words;

pub use seating::{Colouring, colour_by};

//! Linking: the functions of a unit without temporaries become one program.
//!
//! `link_frames` writes the start, which sets the stack register, calls main and ends with its result, and then each function with its
//! entry and its returns. What the program does is what the unit does, by the laws of link_code.
//!
//! - `standing`: the table of the labels that stand.
//! - `conditions`: what is tested of the program that was made: names, labels, addresses and limits. Want of memory is the answer where one
//!   fails; no unit that the compiler makes fails one.
#![tactic(auto)]

mod conditions;
mod linking;
mod standing;

pub use linking::link_frames;

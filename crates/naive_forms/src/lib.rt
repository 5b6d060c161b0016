//! Naive code is such as each pass over code with temporaries may ask.
//!
//! The functions of this crate have no code. specs/Operations.antt says where the operations of a sound function lead; specs/Codes.antt what
//! holds of the code that is built from operations, and of the code of a function: it is whole, framed, straight and tidy, and its padded
//! room is at most five times its function's weight; specs/Images.antt that a unit of such codes is an image. specs/Example.antt has a
//! function that meets what is asked.
#![tactic(auto)]

pub mod laws;

//! The two sides of a machine that goes on between its calls: output that waits to be written, and input until its end was seen.
//!
//! Output is gathered in 4,096 bytes and written when these are full or when the machine asks for it. Input is read byte by byte; once
//! its end was seen, nothing is read any more.
#![tactic(auto)]

mod buffer;
mod reader;

pub use buffer::Buffer;
pub use reader::Reader;

//! What is told of a text.

use md_fault::MdFault;
use md_verdict::{accept, verdict_line};
use rtl_tree::NoMemory;
use std::alloc::Global;
use vp_io::Reason;

/// The line of an accepted text, or why it is refused.
#[derive(Debug, Drop)]
pub enum Verdict {
    Accepted(Vec<u8>),
    Refused(Reason),
    TooLong,
}

/// What is told of a text of at most 1,048,576 bytes.
pub fn verdict_of(alloc: Global, text: &[u8]) -> Result<Verdict, NoMemory> {
    if text.len() > 1_048_576 {
        return Ok(Verdict::TooLong);
    }
    match accept(alloc, text) {
        Ok(accepted) => Ok(Verdict::Accepted(verdict_line(alloc, accepted.raw())?)),
        Err(MdFault::Bad(reason)) => Ok(Verdict::Refused(reason)),
        Err(MdFault::NoMemory) => Err(NoMemory),
    }
}

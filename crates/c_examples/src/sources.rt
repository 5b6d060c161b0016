//! What a source is, or where it is refused.

use c_tree::{CFault, Syntax};
use std::alloc::Global;
use vp_io::Reason;

/// The tree of a source, which these examples keep short.
pub fn tree_of(alloc: Global, source: &[u8]) -> Result<Syntax, CFault> {
    if source.len() > 10_000 {
        return Err(CFault::NoMemory);
    }
    c_source::tree_of(alloc, source)
}

/// The line and the column of a refusal, and its rule; zeros for one that no source has.
pub type Told = Option<(u32, u32, u8)>;

/// None of the rules of these examples gives a detail.
fn place_of(reason: &Reason) -> Told {
    if reason.detail == 0 {
        Some((reason.line, reason.column, reason.rule))
    } else {
        Some((0, 0, 0))
    }
}

/// Why there is no answer.
pub fn told<T>(answer: &Result<T, CFault>) -> Told {
    match answer {
        Ok(_) => None,
        Err(CFault::Bad(reason)) => place_of(reason),
        Err(CFault::NoMemory) => Some((0, 0, 0)),
    }
}

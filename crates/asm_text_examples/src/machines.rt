//! The pdp11 and the mips, accepted once for a test, which hands them on by reference.

use md_check::Checked;
use md_verdict::{Accepted, accept};
use rtl_word::{W16, W32};
use shipped::Shipped::{Mips, Pdp11};
use std::alloc::Global;

pub(crate) fn pdp11(alloc: Global) -> Option<Box<Checked<W16>>> {
    let text = Pdp11.text();
    if text.len() > 10_000 {
        return None;
    }
    match accept(alloc, text) {
        Ok(Accepted::Word16(m)) => Box::new(alloc, m).ok(),
        _ => None,
    }
}

pub(crate) fn mips(alloc: Global) -> Option<Box<Checked<W32>>> {
    let text = Mips.text();
    if text.len() > 10_000 {
        return None;
    }
    match accept(alloc, text) {
        Ok(Accepted::Word32(m)) => Box::new(alloc, m).ok(),
        _ => None,
    }
}

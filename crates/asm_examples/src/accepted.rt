//! The pdp11 and the mips, accepted once for a test.
//!
//! A test is cheap to prove where little is alive wherever a function may end. So tables are constants of flat rows of literals, gone over by
//! reference; one helper judges a row and answers a `bool`; and a machine is a box, which a test has by `pdp11(alloc).expect(&rt, "..")` and
//! hands on as `&*machine`.

use md_check::Checked;
use md_verdict::{Accepted, accept};
use rtl_word::{W16, W32};
use shipped::Shipped::{Mips, Pdp11};
use std::alloc::Global;

/// A text's machine, which has words of 16 bits and a text of at most 10,000 bytes.
pub(crate) fn accepted_16(alloc: Global, text: &[u8]) -> Option<Box<Checked<W16>>> {
    if text.len() > 10_000 {
        return None;
    }
    match accept(alloc, text) {
        Ok(Accepted::Word16(m)) => Box::new(alloc, m).ok(),
        _ => None,
    }
}

/// The same of a machine which has words of 32 bits.
pub(crate) fn accepted_32(alloc: Global, text: &[u8]) -> Option<Box<Checked<W32>>> {
    if text.len() > 10_000 {
        return None;
    }
    match accept(alloc, text) {
        Ok(Accepted::Word32(m)) => Box::new(alloc, m).ok(),
        _ => None,
    }
}

pub(crate) fn pdp11(alloc: Global) -> Option<Box<Checked<W16>>> {
    accepted_16(alloc, Pdp11.text())
}

pub(crate) fn mips(alloc: Global) -> Option<Box<Checked<W32>>> {
    accepted_32(alloc, Mips.text())
}

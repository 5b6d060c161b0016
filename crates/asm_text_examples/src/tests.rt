//! Texts are read, or refused at the least line that breaks a rule, as worked out by hand.

use crate::kept::{Data, MIPS_DATA, MIPS_TEXTS, PDP11_DATA, PDP11_TEXTS, Text};
use crate::machines::{mips, pdp11};
use crate::refused_mips::MIPS;
use crate::refused_pdp11::{PDP11, Refused};
use asm_program::Program;
use asm_text::{AsmFault, read_text};
use md_check::Checked;
use rtl_word::{W16, W32, Word};
use std::alloc::Global;
use vp_io::Reason;

// Whether a text is refused at a line by a rule.
pub(crate) fn is_told<W: Word>(
    alloc: Global,
    m: &Checked<W>,
    text: &[u8],
    line: u32,
    rule: u8,
) -> bool {
    let Err(AsmFault::Bad(reason)) = read_text::<W>(alloc, m, text) else {
        return false;
    };
    reason
        == Reason {
            line,
            column: 1,
            rule,
            detail: 0,
        }
}

// The first of these texts that isn't refused so.
fn first_untold<W: Word>(
    alloc: Global,
    m: &Checked<W>,
    rule: u8,
    texts: &[Refused],
) -> Option<&'static str> {
    for (text, line) in texts {
        if !is_told::<W>(alloc, m, text.as_bytes(), *line, rule) {
            return Some(*text);
        }
    }
    None
}

fn first_untold_of<W: Word>(
    alloc: Global,
    m: &Checked<W>,
    rules: &[(u8, &'static [Refused])],
) -> Option<&'static str> {
    for (rule, texts) in rules {
        let untold = first_untold::<W>(alloc, m, *rule, texts);
        if untold.is_some() {
            return untold;
        }
    }
    None
}

// Each table stands in a function of its own, with nothing else: a long constant makes each step of a proof longer.
fn untold_of_pdp11(alloc: Global, m: &Checked<W16>) -> Option<&'static str> {
    first_untold_of::<W16>(alloc, m, &PDP11)
}

fn untold_of_mips(alloc: Global, m: &Checked<W32>) -> Option<&'static str> {
    first_untold_of::<W32>(alloc, m, &MIPS)
}

#[test]
fn texts_of_the_pdp11_are_refused(rt: HostRuntime) {
    let alloc = rt.alloc();
    let m = pdp11(alloc).expect(&rt, "the pdp11");
    assert_eq!(rt; untold_of_pdp11(alloc, &*m), None);
}

#[test]
fn texts_of_the_mips_are_refused(rt: HostRuntime) {
    let alloc = rt.alloc();
    let m = mips(alloc).expect(&rt, "the mips");
    assert_eq!(rt; untold_of_mips(alloc, &*m), None);
}

fn has_text(p: &Program, row: &Text) -> bool {
    p.lines.len() == row.1 && p.labels.as_slice() == row.2
}

fn has_data(p: &Program, row: &Data) -> bool {
    p.symbols.as_slice() == row.1 && p.bytes.as_slice() == row.2
}

fn is_text<W: Word>(alloc: Global, m: &Checked<W>, row: &Text) -> bool {
    let Ok(p) = read_text::<W>(alloc, m, row.0.as_bytes()) else {
        return false;
    };
    has_text(&p, row)
}

fn is_data<W: Word>(alloc: Global, m: &Checked<W>, row: &Data) -> bool {
    let Ok(p) = read_text::<W>(alloc, m, row.0.as_bytes()) else {
        return false;
    };
    has_data(&p, row)
}

// The first of these texts whose program hasn't the instructions and labels.
fn first_other_text<W: Word>(
    alloc: Global,
    m: &Checked<W>,
    texts: &[Text],
) -> Option<&'static str> {
    for row in texts {
        if !is_text::<W>(alloc, m, row) {
            return Some(row.0);
        }
    }
    None
}

// The first of these texts whose program hasn't the objects and bytes.
fn first_other_data<W: Word>(
    alloc: Global,
    m: &Checked<W>,
    texts: &[Data],
) -> Option<&'static str> {
    for row in texts {
        if !is_data::<W>(alloc, m, row) {
            return Some(row.0);
        }
    }
    None
}

fn other_text_of_pdp11(alloc: Global, m: &Checked<W16>) -> Option<&'static str> {
    first_other_text::<W16>(alloc, m, &PDP11_TEXTS)
}

fn other_data_of_pdp11(alloc: Global, m: &Checked<W16>) -> Option<&'static str> {
    first_other_data::<W16>(alloc, m, &PDP11_DATA)
}

fn other_text_of_mips(alloc: Global, m: &Checked<W32>) -> Option<&'static str> {
    first_other_text::<W32>(alloc, m, &MIPS_TEXTS)
}

fn other_data_of_mips(alloc: Global, m: &Checked<W32>) -> Option<&'static str> {
    first_other_data::<W32>(alloc, m, &MIPS_DATA)
}

#[test]
fn texts_of_the_pdp11_are_read(rt: HostRuntime) {
    let alloc = rt.alloc();
    let m = pdp11(alloc).expect(&rt, "the pdp11");
    assert_eq!(rt; other_text_of_pdp11(alloc, &*m), None);
    assert_eq!(rt; other_data_of_pdp11(alloc, &*m), None);
}

#[test]
fn texts_of_the_mips_are_read(rt: HostRuntime) {
    let alloc = rt.alloc();
    let m = mips(alloc).expect(&rt, "the mips");
    assert_eq!(rt; other_text_of_mips(alloc, &*m), None);
    assert_eq!(rt; other_data_of_mips(alloc, &*m), None);
}

//! Texts at the limits of texts, which are made by loops: lines of many bytes, many instructions, many names.

use crate::machines::{mips, pdp11};
use crate::tests::is_told;
use asm_text::read_text;
use itoa::Buffer;
use md_check::Checked;
use rtl_word::{W16, W32, Word};
use std::alloc::Global;

fn has_program<W: Word>(alloc: Global, m: &Checked<W>, text: &[u8]) -> bool {
    read_text::<W>(alloc, m, text).is_ok()
}

/// How many bytes a line has, what it ends with, and the line and the rule that are told.
type LongLine = (usize, &'static str, u32, u8);

/// A line of at most 640 bytes, as a skipped one, isn't told: the next line is, which no row makes.
const LONG_LINES: [LongLine; 4] = [
    (640, "mov r1,r2", 3, 2),
    (641, "mov r1,r2", 2, 1),
    (640, "* a comment", 3, 2),
    (641, "* a comment", 2, 1),
];

// `.text`, and then a line of so many bytes that ends with these; behind it stands a line that no row makes.
fn with_long_line(alloc: Global, length: usize, end: &[u8]) -> Option<Vec<u8>> {
    let mut text = Vec::from_slice(alloc, b".text\n".as_slice()).ok()?;
    for _ in end.len()..length {
        text.push(b' ').ok()?;
    }
    text.extend_from_slice(end).ok()?;
    text.extend_from_slice(b"\nnone\n".as_slice()).ok()?;
    Some(text)
}

fn is_long_line_told(alloc: Global, m: &Checked<W16>, row: &LongLine) -> bool {
    let Some(text) = with_long_line(alloc, row.0, row.1.as_bytes()) else {
        return false;
    };
    is_told::<W16>(alloc, m, text.as_slice(), row.2, row.3)
}

fn are_long_lines_told(alloc: Global, m: &Checked<W16>) -> bool {
    for row in &LONG_LINES {
        if !is_long_line_told(alloc, m, row) {
            return false;
        }
    }
    true
}

// `.text`, and then one line so many times.
fn repeated(alloc: Global, line: &[u8], count: usize) -> Option<Vec<u8>> {
    let mut text = Vec::from_slice(alloc, b".text\n".as_slice()).ok()?;
    for _ in 0..count {
        text.extend_from_slice(line).ok()?;
    }
    Some(text)
}

fn has_as_many<W: Word>(alloc: Global, m: &Checked<W>, line: &[u8], count: usize) -> bool {
    let Some(text) = repeated(alloc, line, count) else {
        return false;
    };
    has_program::<W>(alloc, m, text.as_slice())
}

// Whether so many instructions are refused at this line.
fn has_too_many<W: Word>(
    alloc: Global,
    m: &Checked<W>,
    line: &[u8],
    count: usize,
    told: u32,
) -> bool {
    let Some(text) = repeated(alloc, line, count) else {
        return false;
    };
    is_told::<W>(alloc, m, text.as_slice(), told, 6)
}

/// How many functions and how many objects there are, and the line that is told.
type ManyNames = (u32, u32, u32);

const TOO_MANY_NAMES: [ManyNames; 3] = [
    (65_001, 0, 65_002),
    (0, 65_001, 65_003),
    (64_000, 1_001, 65_003),
];

fn push_label(text: &mut Vec<u8>, number: u32) -> Option<()> {
    let mut buffer = Buffer::new();
    text.extend_from_slice(b"_n".as_slice()).ok()?;
    text.extend_from_slice(buffer.format(number).as_bytes())
        .ok()?;
    text.extend_from_slice(b":\n".as_slice()).ok()
}

// `.text` with so many labels, and `.data` with so many others.
fn with_names(alloc: Global, functions: u32, objects: u32) -> Option<Vec<u8>> {
    let mut text = Vec::from_slice(alloc, b".text\n".as_slice()).ok()?;
    for number in 0..functions {
        push_label(&mut text, number)?;
    }
    text.extend_from_slice(b".data\n".as_slice()).ok()?;
    for number in 0..objects {
        push_label(&mut text, functions.saturating_add(number))?;
    }
    Some(text)
}

fn has_as_many_names(alloc: Global, m: &Checked<W16>, functions: u32, objects: u32) -> bool {
    let Some(text) = with_names(alloc, functions, objects) else {
        return false;
    };
    has_program::<W16>(alloc, m, text.as_slice())
}

fn has_too_many_names(alloc: Global, m: &Checked<W16>, row: &ManyNames) -> bool {
    let Some(text) = with_names(alloc, row.0, row.1) else {
        return false;
    };
    is_told::<W16>(alloc, m, text.as_slice(), row.2, 6)
}

fn are_names_limited(alloc: Global, m: &Checked<W16>) -> bool {
    for row in &TOO_MANY_NAMES {
        if !has_too_many_names(alloc, m, row) {
            return false;
        }
    }
    true
}

#[test]
fn a_line_has_at_most_640_bytes(rt: HostRuntime) {
    let alloc = rt.alloc();
    let m = pdp11(alloc).expect(&rt, "the pdp11");
    assert!(rt; are_long_lines_told(alloc, &*m));
}

#[test]
fn the_pdp11_has_at_most_65535_instructions(rt: HostRuntime) {
    let alloc = rt.alloc();
    let m = pdp11(alloc).expect(&rt, "the pdp11");
    let line = b"rts pc\n".as_slice();
    assert!(rt; has_as_many::<W16>(alloc, &*m, line, 65_535));
    assert!(rt; has_too_many::<W16>(alloc, &*m, line, 65_536, 65_537));
}

#[test]
fn the_mips_has_at_most_1000000_instructions(rt: HostRuntime) {
    let alloc = rt.alloc();
    let m = mips(alloc).expect(&rt, "the mips");
    let line = b"jr $31\n".as_slice();
    assert!(rt; has_as_many::<W32>(alloc, &*m, line, 65_536));
    assert!(rt; has_as_many::<W32>(alloc, &*m, line, 1_000_000));
    assert!(rt; has_too_many::<W32>(alloc, &*m, line, 1_000_001, 1_000_002));
}

#[test]
fn a_text_has_at_most_65000_names(rt: HostRuntime) {
    let alloc = rt.alloc();
    let m = pdp11(alloc).expect(&rt, "the pdp11");
    assert!(rt; has_as_many_names(alloc, &*m, 65_000, 0));
    assert!(rt; has_as_many_names(alloc, &*m, 0, 65_000));
    assert!(rt; are_names_limited(alloc, &*m));
}

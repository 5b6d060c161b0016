//! Lines are read, or refused, as worked out by hand, and what is printed is read back.

use crate::accepted::{accepted_32, mips, pdp11};
use crate::cases::{Case, MIPS_CASES, PDP11_CASES, TRI_CASES};
use crate::line_cases::{
    LineCase, MIPS_LINES, MIPS_STRANGE, PDP11_BROKEN, PDP11_LINES, PDP11_STRANGE,
};
use crate::telling::line_of;
use asm_line::{LineFault, read_line};
use md_check::Checked;
use md_examples::machines::tri;
use md_rows::{Bound, Instance, RawDescription};
use rtl_tree::{NameList, Names};
use rtl_word::Word;
use std::alloc::Global;

// The line of the row that a line is of and what stands in the row's holes, or why it is no line.
type Answer<'a> = Result<(u32, &'a [Bound]), LineFault>;

fn is_read(d: &RawDescription, read: &Result<Instance, LineFault>, answer: Answer<'_>) -> bool {
    match (read, answer) {
        (Ok(instance), Ok((line, bounds))) => {
            line_of(d, instance.row) == line && instance.binding.list.as_slice() == bounds
        }
        (Err(fault), Err(expected)) => *fault == expected,
        _ => false,
    }
}

// Whether reading a line answers this, where no name is known.
fn reads<W: Word>(alloc: Global, m: &Checked<W>, line: &str, answer: Answer<'_>) -> bool {
    let mut names = Names {
        objects: NameList::new(alloc),
        functions: NameList::new(alloc),
    };
    let read = read_line::<W>(alloc, m, line.as_bytes(), &mut names);
    is_read(m.raw(), &read, answer)
}

// The first of these lines that isn't read as told.
fn first_misread<W: Word>(
    alloc: Global,
    m: &Checked<W>,
    cases: &[LineCase],
) -> Option<&'static str> {
    for (text, line, bounds) in cases {
        if !reads::<W>(alloc, m, text, Ok((*line, *bounds))) {
            return Some(*text);
        }
    }
    None
}

// The first of these lines that isn't refused for this reason.
fn first_read<W: Word>(
    alloc: Global,
    m: &Checked<W>,
    lines: &[&'static str],
    fault: LineFault,
) -> Option<&'static str> {
    for line in lines {
        if !reads::<W>(alloc, m, line, Err(fault)) {
            return Some(*line);
        }
    }
    None
}

// The first of these printed lines that isn't read as the instance that it was printed from.
fn first_unlike<W: Word>(alloc: Global, m: &Checked<W>, cases: &[Case]) -> Option<&'static str> {
    for (_, _, line, bounds, printed) in cases {
        let is_printed = !printed.is_empty();
        if is_printed && !reads::<W>(alloc, m, printed, Ok((*line, *bounds))) {
            return Some(*printed);
        }
    }
    None
}

#[test]
fn lines_of_the_pdp11(rt: HostRuntime) {
    let alloc = rt.alloc();
    let m = pdp11(alloc).expect(&rt, "the pdp11");
    assert_eq!(rt; first_misread(alloc, &*m, &PDP11_LINES), None);
    assert_eq!(rt;
        first_read(alloc, &*m, &PDP11_STRANGE, LineFault::NoRow),
        None
    );
    assert_eq!(rt;
        first_read(alloc, &*m, &PDP11_BROKEN, LineFault::BadToken),
        None
    );
    assert_eq!(rt; first_unlike(alloc, &*m, &PDP11_CASES), None);
}

#[test]
fn lines_of_the_mips(rt: HostRuntime) {
    let alloc = rt.alloc();
    let m = mips(alloc).expect(&rt, "the mips");
    assert_eq!(rt; first_misread(alloc, &*m, &MIPS_LINES), None);
    assert_eq!(rt;
        first_read(alloc, &*m, &MIPS_STRANGE, LineFault::NoRow),
        None
    );
    assert_eq!(rt; first_unlike(alloc, &*m, &MIPS_CASES), None);
}

#[test]
fn lines_of_our_own_machine(rt: HostRuntime) {
    let alloc = rt.alloc();
    let m = accepted_32(alloc, tri()).expect(&rt, "tri");
    assert_eq!(rt; first_unlike(alloc, &*m, &TRI_CASES), None);
}

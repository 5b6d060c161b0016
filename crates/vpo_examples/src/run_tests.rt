//! Texts that run on their machines, and faults of what lies outside while they do.

use crate::calls::{run, source};
use crate::mips_runs::MIPS_RUNS;
use crate::pdp11_runs::{ECHO, PDP11_REFUSED, PDP11_RUNS};
use crate::run_cases::RunCase;
use crate::seen::sink;
use crate::uno_runs::{UNO_RUNS, uno};
use std::alloc::{AllocError, Global};
use std::test::Fail;
use vp_io::{Outcome, Which};
use vpo_top::{MIPS, PDP11};

fn is_as_said(alloc: Global, machine: &[u8], case: &RunCase) -> Result<bool, AllocError> {
    let (steps, text, bytes, printed, told, status) = case;
    let input = source(alloc, bytes, 2, &[])?;
    let seen = run(alloc, steps, machine, text, input, sink(alloc, 3, &[])?)?;
    Ok(
        seen.outcome.code() == *status
            && seen.output.bytes() == *printed
            && seen.errors.bytes() == *told,
    )
}

/// The first of these texts that doesn't run as said.
fn first_other(
    alloc: Global,
    machine: &[u8],
    cases: &[RunCase],
) -> Result<Option<&'static [u8]>, AllocError> {
    for case in cases {
        if !is_as_said(alloc, machine, case)? {
            return Ok(Some(case.1));
        }
    }
    Ok(None)
}

#[test]
fn texts_run_on_uno(rt: HostRuntime) -> Result<(), Fail> {
    assert_eq!(rt; first_other(rt.alloc(), uno(), &UNO_RUNS)?, None);
    Ok(())
}

#[test]
fn texts_run_on_pdp11(rt: HostRuntime) -> Result<(), Fail> {
    assert_eq!(rt; first_other(rt.alloc(), PDP11, &PDP11_RUNS)?, None);
    Ok(())
}

#[test]
fn texts_run_on_mips(rt: HostRuntime) -> Result<(), Fail> {
    assert_eq!(rt; first_other(rt.alloc(), MIPS, &MIPS_RUNS)?, None);
    Ok(())
}

fn is_refused(alloc: Global, text: &str, told: &str) -> Result<bool, AllocError> {
    let input = source(alloc, b"x", 1, &[0])?;
    let seen = run(
        alloc,
        "9",
        PDP11,
        text.as_bytes(),
        input,
        sink(alloc, 1, &[0])?,
    )?;
    Ok(
        seen.outcome.code() == 68
            && seen.output.bytes().is_empty()
            && seen.errors.bytes() == told.as_bytes(),
    )
}

#[test]
fn texts_are_refused(rt: HostRuntime) -> Result<(), Fail> {
    for (text, told) in &PDP11_REFUSED {
        assert!(rt; is_refused(rt.alloc(), text, told)?);
    }
    Ok(())
}

/// A run whose read of this number fails has printed all that it had read.
fn fails_at_read(alloc: Global, read: u64, printed: &[u8]) -> Result<bool, AllocError> {
    let input = source(alloc, b"abcde", 1, &[read])?;
    let seen = run(alloc, "99", PDP11, ECHO, input, sink(alloc, 1, &[])?)?;
    Ok(
        seen.outcome == Outcome::ReadFault(Which::Input)
            && seen.output.bytes() == printed
            && seen.errors.bytes() == b"vpo: read fault: input\n".as_slice(),
    )
}

/// A run whose write of this number fails has written what came before.
fn fails_at_write(alloc: Global, write: u64, printed: &[u8]) -> Result<bool, AllocError> {
    let input = source(alloc, b"abcde", 5, &[])?;
    let seen = run(alloc, "99", PDP11, ECHO, input, sink(alloc, 1, &[write])?)?;
    Ok(
        seen.outcome == Outcome::WriteFault
            && seen.output.bytes() == printed
            && seen.errors.bytes() == b"vpo: write fault\n".as_slice(),
    )
}

#[test]
fn a_read_or_a_write_fails(rt: HostRuntime) -> Result<(), Fail> {
    let bytes = b"abcde";
    for count in 0..=5 {
        assert!(rt; fails_at_read(rt.alloc(), count as u64, &bytes[..count])?);
    }
    for count in 0..5 {
        assert!(rt; fails_at_write(rt.alloc(), count as u64, &bytes[..count])?);
    }
    Ok(())
}

#[test]
fn nothing_fails(rt: HostRuntime) -> Result<(), Fail> {
    let alloc = rt.alloc();
    let input = source(alloc, b"abcde", 3, &[6])?;
    let seen = run(alloc, "99", PDP11, ECHO, input, sink(alloc, 1, &[5])?)?;
    assert_eq!(rt; seen.outcome, Outcome::Done(5));
    assert_eq!(rt; seen.output.bytes(), b"abcde".as_slice());
    Ok(())
}

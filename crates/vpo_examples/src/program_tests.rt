//! Programs that are compiled and run.

use crate::calls::{run, run_to, source};
use crate::programs::{MORE_PROGRAMS, PROGRAMS, Program};
use crate::seen::{Seen, wide_sink};
use md_examples::machines::{duo, tri};
use std::alloc::{AllocError, Global};
use std::test::Fail;
use vp_io::Outcome;
use vpo_top::{MIPS, PDP11};

/// The text of a source for a machine.
pub fn compiled(alloc: Global, machine: &[u8], text: &[u8]) -> Result<Seen, AllocError> {
    let words = ["cc", "--plain", "d", "s"];
    run_to(alloc, &words, Some(machine), Some(text), wide_sink(alloc)?)
}

fn does_as_said(alloc: Global, machine: &[u8], program: &Program) -> Result<bool, AllocError> {
    let (text, bytes, printed, status) = program;
    let made = compiled(alloc, machine, text)?;
    if made.outcome != Outcome::Done(0) {
        return Ok(false);
    }
    let input = source(alloc, bytes, 3, &[])?;
    let output = wide_sink(alloc)?;
    let seen = run(
        alloc,
        "1000000",
        machine,
        made.output.bytes(),
        input,
        output,
    )?;
    Ok(seen.outcome == Outcome::Done(*status) && seen.output.bytes() == *printed)
}

/// The first of these programs that doesn't do as said.
pub fn first_other(
    alloc: Global,
    machine: &[u8],
    programs: &[Program],
) -> Result<Option<&'static [u8]>, AllocError> {
    for program in programs {
        if !does_as_said(alloc, machine, program)? {
            return Ok(Some(program.0));
        }
    }
    Ok(None)
}

#[test]
fn programs_on_pdp11(rt: HostRuntime) -> Result<(), Fail> {
    assert_eq!(rt; first_other(rt.alloc(), PDP11, &PROGRAMS)?, None);
    Ok(())
}

#[test]
fn programs_on_mips(rt: HostRuntime) -> Result<(), Fail> {
    assert_eq!(rt; first_other(rt.alloc(), MIPS, &PROGRAMS)?, None);
    assert_eq!(rt; first_other(rt.alloc(), MIPS, &MORE_PROGRAMS)?, None);
    Ok(())
}

#[test]
fn programs_on_duo(rt: HostRuntime) -> Result<(), Fail> {
    assert_eq!(rt; first_other(rt.alloc(), duo(), &PROGRAMS)?, None);
    Ok(())
}

#[test]
fn programs_on_tri(rt: HostRuntime) -> Result<(), Fail> {
    assert_eq!(rt; first_other(rt.alloc(), tri(), &PROGRAMS)?, None);
    Ok(())
}

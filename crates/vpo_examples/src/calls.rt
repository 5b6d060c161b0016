//! Calls of the program over objects in memory.

ghost use Rattle.std.specs.Prelude.{◌<◌};

use crate::seen::{Seen, file, owned, sink};
use std::alloc::{AllocError, Global};
use vp_io::{MemFiles, MemSink, MemSource, SafeSource};
use vpo_top::vpo;

/// What the words do over a description `d` and a source `s`.
pub fn run_to(
    alloc: Global,
    words: &[&str],
    description: Option<&[u8]>,
    source: Option<&[u8]>,
    mut output: MemSink,
) -> Result<Seen, AllocError> {
    let words = owned(alloc, words)?;
    let mut entries = Vec::new(alloc);
    entries.push(file(alloc, "d", description)?)?;
    entries.push(file(alloc, "s", source)?)?;
    let mut files = MemFiles::new(entries, 4096, Vec::new(alloc));
    let mut input = SafeSource::new(Vec::new(alloc));
    let mut errors = sink(alloc, 4, &[])?;
    let outcome = vpo(
        alloc,
        &words,
        &mut files,
        &mut input,
        &mut output,
        &mut errors,
    );
    Ok(Seen {
        outcome,
        output,
        errors,
    })
}

/// Bytes to read, in pieces of so many, where the reads of these numbers fail.
pub fn source(
    alloc: Global,
    bytes: &[u8],
    piece: usize,
    failing: &[u64],
) -> Result<MemSource, AllocError>
    requires { 0 < piece }
{
    Ok(MemSource::new(bytes.to_vec(alloc)?, piece, failing.to_vec(alloc)?))
}

/// What a run of a text `a` on a machine `d` comes to.
pub fn run(
    alloc: Global,
    steps: &str,
    machine: &[u8],
    text: &[u8],
    mut input: MemSource,
    mut output: MemSink,
) -> Result<Seen, AllocError> {
    let words = owned(alloc, &["run", "--steps", steps, "d", "a"])?;
    let mut entries = Vec::new(alloc);
    entries.push(file(alloc, "d", Some(machine))?)?;
    entries.push(file(alloc, "a", Some(text))?)?;
    let mut files = MemFiles::new(entries, 4096, Vec::new(alloc));
    let mut errors = sink(alloc, 4, &[])?;
    let outcome = vpo(
        alloc,
        &words,
        &mut files,
        &mut input,
        &mut output,
        &mut errors,
    );
    Ok(Seen {
        outcome,
        output,
        errors,
    })
}

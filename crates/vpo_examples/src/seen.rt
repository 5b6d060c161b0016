//! What a call of the program comes to, and the objects in memory that it is given.

ghost use Rattle.std.specs.Prelude.{◌<◌};

use std::alloc::{AllocError, Global};
use vp_io::{MemFile, MemSink, Outcome};

#[derive(Drop)]
pub struct Seen {
    pub outcome: Outcome,
    pub output: MemSink,
    pub errors: MemSink,
}

pub fn owned(alloc: Global, words: &[&str]) -> Result<Vec<String>, AllocError> {
    let mut all = Vec::new(alloc);
    for word in words {
        all.push(word.to_string(alloc)?)?;
    }
    Ok(all)
}

/// A file, which is absent where there are no bytes.
pub fn file(alloc: Global, name: &str, bytes: Option<&[u8]>) -> Result<MemFile, AllocError> {
    Ok(MemFile {
        name: name.as_bytes().to_vec(alloc)?,
        bytes: bytes.unwrap_or(b"").to_vec(alloc)?,
        absent: bytes.is_none(),
        faults: 0,
    })
}

/// A sink that takes so many bytes a call, and fails at the calls of these numbers.
pub fn sink(alloc: Global, piece: usize, failing: &[u64]) -> Result<MemSink, AllocError>
    requires { 0 < piece }
{
    Ok(MemSink::new(vec![in alloc; 0; 8192]?, piece, failing.to_vec(alloc)?))
}

/// A sink that takes the text of any program here.
pub fn wide_sink(alloc: Global) -> Result<MemSink, AllocError> {
    Ok(MemSink::new(vec![in alloc; 0; 262_144]?, 4096, Vec::new(alloc)))
}

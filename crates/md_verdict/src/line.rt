//! What is written of an accepted description.

ghost use Rattle.std.specs.Prelude.{◌≡◌, ◌++◌, IfOk, if◌then◌else◌, is_ok, decimal};
ghost use Rattle.md_verdict.specs.Line.{verdict_line_of};

use itoa::Buffer;
use md_rows::RawDescription;
use rtl_tree::NoMemory;
use std::alloc::Global;

fn push_number(line: &mut Vec<u8>, number: u64) -> Result<(), NoMemory>
    ensures { line.new.items ≡ (if is_ok result then line.old.items ++ decimal number else line.old.items) }
{
    let mut digits = Buffer::new();
    line.extend_from_slice(digits.format(number).as_bytes())?;
    Ok(())
}

/// The line that tells the name of a description, the bits of its words, and how many rows it has once its modes are multiplied out.
pub fn verdict_line(alloc: Global, d: &RawDescription) -> Result<Vec<u8>, NoMemory>
    ensures { IfOk result (λ line. line.items ≡ verdict_line_of d.now) }
{
    let mut line = Vec::from_slice(alloc, b"accepted ")?;
    line.extend_from_slice(d.name.as_slice())?;
    line.extend_from_slice(b" word ")?;
    push_number(&mut line, u64::from(d.word))?;
    line.extend_from_slice(b" rows ")?;
    push_number(&mut line, d.rows.len() as u64)?;
    line.push(b'\n')?;
    Ok(line)
}

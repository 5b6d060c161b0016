//! The lines of a text that say something.

ghost use Rattle.std.specs.Prelude.{◌≡◌, ◌==◌, ◌-◌, ◌^◌, ◌≤◌, ℕ, length, map, IfOk, IsErrOf};
ghost use Rattle.std.specs.List.{list_all};
ghost use Rattle.md_text.specs.Lines.{is_good_line, is_skipped, is_printable};
ghost use Rattle.md_lines.specs.Kept.{line_of, KeepsLines, IsFirstBadLine};

use crate::splits::split_at_byte;
use std::alloc::{AllocFailed, Global};

/// A line that says something, with its number, counted from 1.
#[derive(Clone, Copy, Debug, PartialEq, Eq)]
pub struct Line<'a> {
    pub number: u32,
    pub bytes: &'a [u8],
}

/// The lines of a text that say something, and the number of its last line.
#[derive(Debug, Drop)]
pub struct Lines<'a> {
    pub kept: Vec<Line<'a>>,
    pub last: u32,
}

/// Why a text's lines weren't read.
#[derive(Clone, Copy, Debug, PartialEq, Eq)]
pub enum LineFault {
    NoMemory,
    /// The first line that is too long, has a byte that can't be printed, or has no line feed.
    BadLine(u32),
}

impl<T: Drop> From<AllocFailed<T>> for LineFault {
    ghost use Rattle.md_lines.specs.declared.lines.LineFault.TheVariants.{NoMemory};

    ghost from_gives = { λ _ fault. fault ≡ NoMemory };

    fn from(_: AllocFailed<T>) -> LineFault {
        LineFault::NoMemory
    }
}

/// The most bytes of a line, without its line feed.
const LONGEST: usize = 255;

fn is_printable(byte: u8) -> bool
    ensures { result ≡ is_printable byte }
{
    32 <= byte && byte <= 126
}

fn are_printable(bytes: &[u8]) -> bool
    ensures { result ≡ list_all is_printable bytes.now }
{
    bytes.iter().all(|byte| is_printable(*byte))
}

fn is_good_line(line: &[u8]) -> bool
    ensures { result ≡ is_good_line line.now }
{
    line.len() <= LONGEST && are_printable(line)
}

/// Whether a line is empty or begins with `*`.
fn is_skipped(line: &[u8]) -> bool
    ensures { result ≡ is_skipped line.now }
{
    match line {
        [] => true,
        [first, ..] => *first == b'*',
    }
}

/// The lines of a text that say something, where each of its lines is good.
pub fn read_lines(alloc: Global, text: &[u8]) -> Result<Lines<'_>, LineFault>
    requires { length text.now ≤ 2 ^ 32 - 2 }
    ensures kept { IfOk result (λ lines. KeepsLines text.now (map line_of lines.kept.items) lines.last) }
    ensures bad { (n : ℕ) → IsErrOf result (LineFault.BadLine n) → IsFirstBadLine text.now n }
{
    let mut kept = Vec::new(alloc);
    let mut rest = text;
    let mut number = 1;
    while !rest.is_empty() {
        let Some((line, after)) = split_at_byte(rest, b'\n') else {
            return Err(LineFault::BadLine(number));
        };
        if !is_good_line(line) {
            return Err(LineFault::BadLine(number));
        }
        if !is_skipped(line) {
            kept.push(Line {
                number,
                bytes: line,
            })?;
        }
        rest = after;
        number += 1;
    }
    Ok(Lines {
        kept,
        last: number - 1,
    })
}

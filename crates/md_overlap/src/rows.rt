//! Whether two rows overlap.

ghost use Rattle.std.specs.Prelude.{◌↔◌, IsTrue};
ghost use Rattle.md_overlap.specs.Overlap.{Overlap};
ghost use Rattle.md_overlap.specs.Premises.{AreInOrder, AreNames};

use crate::pieces::meet;
use md_rows::{RawDescription, Row};

/// Whether two rows of a description overlap.
pub fn overlaps(d: &RawDescription, row: &Row, other: &Row) -> bool
    requires names { AreNames d.now.registers }
    requires ranges { AreInOrder row.now.holes }
    requires other_ranges { AreInOrder other.now.holes }
    ensures { IsTrue result ↔ Overlap d.now row.now other.now }
{
    let registers = d.registers.as_slice();
    let (holes, others) = (row.holes.as_slice(), other.holes.as_slice());
    let (text, more) = (row.text.as_slice(), other.text.as_slice());
    if text.len() != more.len() {
        return false;
    }
    for i in 0..text.len() {
        if !meet(registers, holes, &text[i], others, &more[i]) {
            return false;
        }
    }
    true
}

//! The laws of lines that are written code by code.

ghost use Rattle.link_lines.specs.Laws.{AddedAreCovered, CodesAreLinked};

use temp_laws::required_covered;

/// Codes of different functions that are written one behind the other, with the start before them, are the linked program.
pub fn codes_are_linked()
    ensures { CodesAreLinked }
{}

/// An accepted description covers the shapes that linking adds.
pub fn added_are_covered()
    ensures { AddedAreCovered }
{
    required_covered();
}

//! The laws of lines.

ghost use Rattle.asm_line.specs.Law.{AtMostOneInstance, CheckedIsReadable};

use md_said::said_is_sound;

/// An accepted description has what reading and writing its lines rests on.
pub fn checked_is_readable()
    ensures { CheckedIsReadable }
{
    said_is_sound();
}

/// In an accepted description the tokens of a line are those of one instance at most.
pub fn at_most_one_instance()
    ensures { AtMostOneInstance }
{
    checked_is_readable();
}

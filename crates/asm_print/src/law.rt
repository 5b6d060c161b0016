//! The laws of printing.

ghost use Rattle.asm_print.specs.Law.{LinesAreText, TextsArePrintable};

use asm_line::law::checked_is_readable;
use md_literals::said_has_literals;

/// The lines of a program, as they are written, are a text of which it is the program.
pub fn lines_are_text()
    ensures { LinesAreText }
{
    checked_is_readable();
    said_has_literals();
}

/// The program of a text is one that is printed.
pub fn texts_are_printable()
    ensures { TextsArePrintable }
{
    checked_is_readable();
}

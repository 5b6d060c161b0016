//! Laws of assembly texts.

ghost use Rattle.asm_program.specs.Law.{AreExamples, AtMostOneProgram, SaysOneThing, ToldIsUnsound};

use asm_token::law::{at_most_one_spelled, blanks_are_gaps, line_reads_back};

/// A line says one thing.
pub fn says_one_thing()
    ensures { SaysOneThing }
{
    at_most_one_spelled();
    blanks_are_gaps();
}

/// A text of which a rule is told doesn't keep the rules.
pub fn told_is_unsound()
    ensures { ToldIsUnsound }
{
    says_one_thing();
}

/// A text has at most one program, but for the numbers of its names, the order of its labels, and functions that nothing names.
pub fn at_most_one_program()
    ensures { AtMostOneProgram }
{
    says_one_thing();
}

/// A text with a program, and one of which a rule is told.
pub fn examples()
    ensures { AreExamples }
{
    line_reads_back();
}

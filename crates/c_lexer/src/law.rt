//! Laws of the definitions alone.

ghost use Rattle.c_lexer.specs.Outcome.{OneOutcome};
ghost use Rattle.c_lexer.specs.Tokens.{LongestMatch};

/// A text has at most one list of tokens or first fault.
pub fn one_outcome()
    ensures { OneOutcome }
{}

/// No longer front of a text spells a token than the one that is found there.
pub fn longest_match()
    ensures { LongestMatch }
{}

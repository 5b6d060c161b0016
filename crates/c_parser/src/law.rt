//! Laws of the definitions alone.

ghost use Rattle.c_parser.specs.Law.{LexedIsEnded, NoTreeIsRefused, OneRefusal, SpelledOrRefused, Unique};

/// Tokens are spelled by at most one tree.
pub fn unique()
    ensures { Unique }
{}

/// Tokens are refused by one rule at most, at one place.
pub fn one_refusal()
    ensures { OneRefusal }
{}

/// Tokens with their end are those of a tree or are refused, and never both.
pub fn spelled_or_refused()
    ensures either { SpelledOrRefused }
    ensures never_both { NoTreeIsRefused }
{}

/// The tokens of a text have their end last, and nowhere else.
pub fn lexed_is_ended()
    ensures { LexedIsEnded }
{}

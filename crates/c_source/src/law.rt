//! Laws of the definitions alone.

ghost use Rattle.c_source.specs.Source.{OneOutcome};

use c_lexer::law::one_outcome as one_list_of_tokens;
use c_parser::law::{one_refusal, spelled_or_refused, unique};

/// A text has one tree at most, or is refused in one way.
pub fn one_outcome()
    ensures { OneOutcome }
{
    one_list_of_tokens();
    unique();
    one_refusal();
    spelled_or_refused();
}

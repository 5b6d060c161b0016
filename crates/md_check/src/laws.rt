//! Laws of accepted and refused texts.

ghost use Rattle.md_check.specs.Laws.{AtMostOneOutcome};

use md_text::laws::{at_most_one_description, at_most_one_told};

/// A text is accepted or refused, and not both, in one way.
pub fn at_most_one_outcome()
    ensures { AtMostOneOutcome }
{
    at_most_one_description();
    at_most_one_told();
}

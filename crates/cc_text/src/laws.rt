//! A law of the definitions.

ghost use Rattle.cc_text.specs.Laws.{NeverBoth};

use c_source::law::one_outcome;

/// No source is both accepted and refused.
pub fn never_both()
    ensures { NeverBoth }
{
    one_outcome();
}

//! Laws of the definitions alone.

ghost use Rattle.c_typing.specs.Laws.{TellsFirst, TellsNone, HasTree};

/// What is told of all faults is the first of them.
pub fn first_is_told()
    ensures { TellsFirst }
{}

/// Where nothing is told, nothing is broken.
pub fn none_is_told()
    ensures { TellsNone }
{}

/// A source that breaks no rule has a typed tree.
pub fn has_tree()
    ensures { HasTree }
{}

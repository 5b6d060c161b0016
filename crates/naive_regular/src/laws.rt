//! The laws of regular trees.

ghost use Rattle.naive_regular.specs.Laws.{RegularFillsLists, RegularIsExpandable, TypedIsRegular};

/// The typed tree of a text that breaks no rule is regular.
pub fn typed_is_regular()
    ensures { TypedIsRegular }
{}

/// Naive code can be made of a regular tree where its operators are there.
pub fn regular_is_expandable()
    ensures { RegularIsExpandable }
{}

/// A regular tree has no empty list of initialisers, as is asked where its homes are counted.
pub fn regular_fills_lists()
    ensures { RegularFillsLists }
{}

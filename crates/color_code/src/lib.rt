//! Colourings: in which register each temporary of a routine is, or that it is in its home.
//!
//! specs/Colors says what is asked of a colouring, and when it is sparing; specs/Greedy how temporaries get their colours one after the
//! other. That this is a sparing colouring, whatever the order, is the law below.
#![tactic(auto)]

ghost use Rattle.color_code.specs.Laws.{GreedyIsSparing};

/// Temporaries that get their colours one after the other, each the first that no neighbour holds, are coloured sparingly.
pub fn greedy_is_sparing()
    ensures { GreedyIsSparing }
{}

//! Laws of how many transfers and homes naive code takes.

ghost use Rattle.naive_counts.specs.Counts.{AreReturnsWithinWeight, IsWithinWeight, WaysAreCounted};
ghost use Rattle.naive_counts.specs.Homes.{HomesAreSlots};

/// Each operation is counted by the longest of its ways.
pub fn ways_are_counted()
    ensures { WaysAreCounted }
{}

/// A function's naive code has no more transfers than the function weighs, without the 16 that are for the passes.
pub fn code_is_within_weight()
    ensures { IsWithinWeight }
{}

/// That stays so where each return counts what it may take for registers that are kept over calls.
pub fn returns_are_within_weight()
    ensures { AreReturnsWithinWeight }
{}

/// Each temporary of naive code has a home, which is one of the function's slots.
pub fn homes_are_slots()
    ensures { HomesAreSlots }
{}

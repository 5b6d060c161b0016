//! What some transfers do, worked out by hand.

ghost use Rattle.rtl_effect.specs.Worked.{AddressBeforeAlign, NumberIsNoTarget, PrintsAndEnds, SideTrapsFirst, Swaps, UnsetDivided, UnsetStored};

/// The order of the tests, the old view, and unset operands.
pub fn worked_effects()
    ensures swap { Swaps }
    ensures side_first { SideTrapsFirst }
    ensures address_first { AddressBeforeAlign }
    ensures unset_divided { UnsetDivided }
    ensures unset_stored { UnsetStored }
    ensures prints_and_ends { PrintsAndEnds }
    ensures number_is_no_target { NumberIsNoTarget }
{}

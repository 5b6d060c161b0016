//! Tables of what is live in a routine that is coloured: by an exact one each of its transfers is at a place where it may be coloured.
#![tactic(auto)]

ghost use Rattle.color_table.specs.Laws.{BodiesArePlaces, JumpsArePlaces, ExactIsCarried};

/// By an exact table each transfer of a body may be coloured.
pub fn bodies_are_places()
    ensures { BodiesArePlaces }
{}

/// And so may each jump or branch.
pub fn jumps_are_places()
    ensures { JumpsArePlaces }
{}

/// What is live where a block begins is live at the ends that lead there.
pub fn exact_is_carried()
    ensures { ExactIsCarried }
{}

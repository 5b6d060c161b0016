//! Coloured code as a whole: it does what the old code does, and takes at most its room.
//!
//! States are related at the begins of blocks. A caller that waits has its live temporaries in its homes, which no other call can touch.
#![tactic(auto)]

ghost use Rattle.color_steps.specs.Laws.{KeepsColored};
ghost use Rattle.color_steps.specs.Sizes.{ColoredIsSmall};

/// Coloured code keeps what the old code does.
pub fn keeps_colored()
    ensures { KeepsColored }
{}

/// A coloured routine has at most the room of the old one, and as many returns.
pub fn colored_is_small()
    ensures { ColoredIsSmall }
{}

//! Coloured code: what stands there for a transfer, and that it takes at most the transfer's room.
#![tactic(auto)]

ghost use Rattle.color_transfer.specs.Colored.{ColoredFits};

/// A transfer with its loads and stores takes at most the room of the old transfer.
pub fn colored_fits()
    ensures { ColoredFits }
{}

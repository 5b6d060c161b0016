//! A coloured image is an image again: with no temporary, and with the calls of the old one.
//!
//! Of loads and stores it asks that they neither jump nor move the stack. Those that instructions of an accepted description make don't,
//! and what stands between them doesn't where the old code doesn't.
#![tactic(auto)]

ghost use Rattle.color_image.specs.Laws.{ColoredIsImage};
ghost use Rattle.color_image.specs.Middles.{MiddlesAreStraight};
ghost use Rattle.color_image.specs.Rows.{HomesAreStraight};

use temp_laws::{sets_are_shapes, targets_are_sound};

/// A coloured program is an image without temporaries.
pub fn colored_is_image()
    ensures { ColoredIsImage }
{}

/// A coloured transfer neither jumps nor moves the stack where the old one doesn't.
pub fn middles_are_straight()
    ensures { MiddlesAreStraight }
{}

/// Loads of homes and stores to them neither jump nor move the stack.
pub fn homes_are_straight()
    ensures { HomesAreStraight }
{
    sets_are_shapes();
    targets_are_sound();
}

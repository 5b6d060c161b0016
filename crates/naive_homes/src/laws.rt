//! Laws of the homes of naive code.

ghost use Rattle.naive_homes.specs.Homes.{HomesAreObeyed, NoneIsReserve};
ghost use Rattle.naive_homes.specs.Reading.{ReadsAreShapes};

use md_bounds::said_is_bounded;
use md_said::said_is_sound;
use naive_live::laws::functions_live;
use temp_laws::{
    branches_go, flag_branches_go, flags_are_shapes, jumps_go, names_are_shapes, sets_are_kept,
    sets_are_shapes,
};

/// Beside what it assigns to flags, a transfer of a shape reads no temporary that the shape doesn't read.
pub fn reads_are_shapes()
    ensures { ReadsAreShapes }
{
    said_is_sound();
    said_is_bounded();
}

/// In the code of a sound function, temporaries that are live at once have different homes.
pub fn homes_are_obeyed()
    ensures { HomesAreObeyed }
{
    functions_live();
    reads_are_shapes();
    sets_are_shapes();
    sets_are_kept();
    names_are_shapes();
    flags_are_shapes();
    jumps_go();
    branches_go();
    flag_branches_go();
}

/// No temporary has a home that is in reserve.
pub fn none_is_reserve()
    ensures { NoneIsReserve }
{}

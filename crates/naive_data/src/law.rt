//! The functions do nothing: they promise what their words say.

ghost use Rattle.naive_data.specs.Placed.{HaveRoom};
ghost use Rattle.naive_data.specs.Worked.{Objects};

/// The objects of a source within the limits take no more than the room that there is.
pub fn have_room()
    ensures { HaveRoom }
{}

/// Three objects, with their addresses and bytes; they are within the limits, and an image with them is placed.
pub fn worked_objects()
    ensures { Objects }
{}

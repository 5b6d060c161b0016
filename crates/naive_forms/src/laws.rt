//! Laws of the form of naive code.

ghost use Rattle.naive_forms.specs.Operations.{OperationsGo};
ghost use Rattle.naive_forms.specs.Codes.{BuiltIsShort, BuiltIsTidy, FunctionsAreSound, FunctionsHaveRoom};
ghost use Rattle.naive_forms.specs.Example.{FiveIsProper};
ghost use Rattle.naive_forms.specs.Images.{UnitsAreImages};

use naive_counts::laws::{homes_are_slots, returns_are_within_weight, ways_are_counted};
use temp_laws::{
    branches_go, calls_go, conditions_are_kept, flag_branches_go, jumps_go, names_are_shapes,
    sets_are_kept, sets_are_shapes, targets_are_sound,
};

/// The operations of a sound function jump to its own labels, and call functions of the source with arguments that its frame has words for.
pub fn operations_go()
    ensures { OperationsGo }
{}

/// What operations on temporaries append to an empty block is straight and tidy.
pub fn built_is_tidy()
    ensures { BuiltIsTidy }
{
    conditions_are_kept();
    names_are_shapes();
    sets_are_shapes();
    sets_are_kept();
    jumps_go();
    branches_go();
    flag_branches_go();
    calls_go();
}

/// It has no more transfers and returns than the operations count.
pub fn built_is_short()
    ensures { BuiltIsShort }
{
    ways_are_counted();
}

/// The code of a function is whole, framed, straight and tidy.
pub fn functions_are_sound()
    ensures { FunctionsAreSound }
{
    conditions_are_kept();
    names_are_shapes();
    sets_are_shapes();
    sets_are_kept();
    jumps_go();
    branches_go();
    flag_branches_go();
    calls_go();
    targets_are_sound();
    ways_are_counted();
    homes_are_slots();
    returns_are_within_weight();
}

/// Its room is at most five times its function's weight.
pub fn functions_have_room()
    ensures { FunctionsHaveRoom }
{
    conditions_are_kept();
    names_are_shapes();
    sets_are_shapes();
    sets_are_kept();
    jumps_go();
    branches_go();
    flag_branches_go();
    calls_go();
    targets_are_sound();
    ways_are_counted();
    homes_are_slots();
    returns_are_within_weight();
}

/// The codes of all functions of a source are an image.
pub fn units_are_images()
    ensures { UnitsAreImages }
{
    conditions_are_kept();
    names_are_shapes();
    sets_are_shapes();
    sets_are_kept();
    jumps_go();
    branches_go();
    flag_branches_go();
    calls_go();
    targets_are_sound();
    ways_are_counted();
    homes_are_slots();
    returns_are_within_weight();
}

/// Some function meets what is asked of functions.
pub fn five_is_proper()
    ensures { FiveIsProper }
{}

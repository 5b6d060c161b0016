//! The law of units of naive codes.

ghost use Rattle.naive_units.specs.Units.{UnitsAreGood};

use naive_counts::laws::{code_is_within_weight, homes_are_slots};
use naive_fits::laws::{labels_are_once, labels_are_own};
use naive_forms::laws::{
    built_is_short, functions_are_sound, functions_have_room, operations_go, units_are_images,
};
use naive_homes::laws::{homes_are_obeyed, none_is_reserve};
use naive_live::laws::names_are_temporaries;

/// The codes of all functions of a tree that means something throughout are an image, and each is such as a pass may ask.
pub fn units_are_good()
    ensures { UnitsAreGood }
{
    functions_are_sound();
    functions_have_room();
    built_is_short();
    operations_go();
    units_are_images();
    homes_are_obeyed();
    none_is_reserve();
    names_are_temporaries();
    labels_are_once();
    labels_are_own();
    homes_are_slots();
    code_is_within_weight();
}

//! Laws of units as they go through the passes: naive code is what colouring takes; a coloured unit does what the naive one does and is what
//! linking takes; and so the program that it is linked to does what the source does. The functions do nothing.

ghost use Rattle.pass_driver.specs.Codes.{ColorsAreMet};
ghost use Rattle.pass_driver.specs.Units.{ProgramsAreShort, UnitsAreKept, UnitsAreLinkable};
ghost use Rattle.pass_driver.specs.Meaning.{CompiledIsSame};

use behaviour::laws::{keep_is_transitive, keep_keeps_same};
use color_image::colored_is_image;
use color_steps::{colored_is_small, keeps_colored};
use color_units::colors_are_general;
use link_runs::{linked_units_keep, rooms_are_enough};
use live_decided::liveness_is_decided;
use row_colors::{bodies_are_calm, calm_does, shapes_are_calm};
use row_laws::realised_are_formed;
use temp_laws::{names_are_shapes, targets_are_sound};

/// A naive code may be coloured.
pub fn colors_are_met()
    ensures { ColorsAreMet }
{
    realised_are_formed();
    bodies_are_calm();
    shapes_are_calm();
    calm_does();
    names_are_shapes();
    targets_are_sound();
}

/// A coloured unit does what the naive one does.
pub fn units_are_kept()
    ensures { UnitsAreKept }
{
    realised_are_formed();
    bodies_are_calm();
    shapes_are_calm();
    calm_does();
    names_are_shapes();
    targets_are_sound();
    colors_are_general();
    liveness_is_decided();
    keeps_colored();
}

/// A coloured unit of a source within the limits can be linked.
pub fn units_are_linkable()
    ensures { UnitsAreLinkable }
{
    realised_are_formed();
    bodies_are_calm();
    shapes_are_calm();
    calm_does();
    names_are_shapes();
    targets_are_sound();
    colors_are_general();
    liveness_is_decided();
    colored_is_image();
}

/// The program of such a unit is within the limit of its machine.
pub fn programs_are_short()
    ensures { ProgramsAreShort }
{
    realised_are_formed();
    bodies_are_calm();
    shapes_are_calm();
    calm_does();
    names_are_shapes();
    targets_are_sound();
    colors_are_general();
    liveness_is_decided();
    colored_is_small();
    rooms_are_enough();
}

/// The linked program of a coloured unit of the naive code of a source does what the source does.
pub fn compiled_is_same()
    ensures { CompiledIsSame }
{
    units_are_kept();
    units_are_linkable();
    programs_are_short();
    linked_units_keep();
    keep_is_transitive();
    keep_keeps_same();
}

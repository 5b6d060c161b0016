//! A linked unit does on the machine what the unit does.
//!
//! The functions of this crate have no code. specs/Found says that what linking finds in the rows of a description is what its laws ask of
//! them, specs/Sizes how long a linked program is, and specs/Units that it keeps what its unit does.
#![tactic(auto)]

ghost use Rattle.link_runs.specs.Found.{FoundIsInstance, GlueIsOfRows};
ghost use Rattle.link_runs.specs.Sizes.{ProgramIsShort, RoomsAreEnough};
ghost use Rattle.link_runs.specs.Units.{LinkedUnitsKeep};

use link_code::laws::{linked_program_does_the_same, sound_image_is_linkable};
use link_lines::law::codes_are_linked;
use md_bounds::said_is_bounded;
use md_covers::laws::general_bits_are_a_sum;
use md_said::{said_is_limited, said_is_sound};
use row_links::{jobs_are_flat, jobs_are_sound};

/// The instruction that linking finds for a shape, at one of the shape's numbers, does that shape.
pub fn found_is_instance()
    ensures { FoundIsInstance }
{
    said_is_sound();
    said_is_limited();
    said_is_bounded();
    general_bits_are_a_sum();
}

/// The transfers that linking adds are those of shapes.
pub fn glue_is_of_rows()
    ensures { GlueIsOfRows }
{
    found_is_instance();
}

/// In a program within the limit of its machine, each place is a word.
pub fn program_is_short()
    ensures { ProgramIsShort }
{
    said_is_sound();
}

/// A unit that is linked has no more lines than the padded room of the codes that it was coloured from, and those of the start.
pub fn rooms_are_enough()
    ensures { RoomsAreEnough }
{
    codes_are_linked();
}

/// On each input of bytes on which a unit never fails, the program that it is linked to never fails either and does the same.
pub fn linked_units_keep()
    ensures { LinkedUnitsKeep }
{
    glue_is_of_rows();
    program_is_short();
    jobs_are_sound();
    jobs_are_flat();
    sound_image_is_linkable();
    linked_program_does_the_same();
}

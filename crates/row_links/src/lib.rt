//! Laws of rows for linking.
//!
//! The functions of this crate have no code. specs/Glue says that rows found for the shapes that linking writes do as it asks; specs/Numbers
//! which numbers these shapes have there; and specs/Jobs that a unit of instructions without temporaries can be linked.
#![tactic(auto)]

ghost use Rattle.row_links.specs.Glue.{RowGlueDoes, ShapesRun};
ghost use Rattle.row_links.specs.Jobs.{JobsAreFlat, JobsAreSound};
ghost use Rattle.row_links.specs.Numbers.{FramesAreNumbers};

use md_bounds::said_is_bounded;
use md_covers::laws::general_bits_are_a_sum;
use md_said::{said_is_limited, said_is_sound};

/// On a machine, on which labels are places, a transfer of a shape does as the shape.
pub fn shapes_run()
    ensures { ShapesRun }
{
    said_is_sound();
    said_is_bounded();
}

/// Rows that are found for the shapes that linking writes do as it asks.
pub fn row_glue_does()
    ensures { RowGlueDoes }
{
    said_is_sound();
    said_is_bounded();
}

/// What the stack register moves by, and where the link register is saved, are numbers of the shapes.
pub fn frames_are_numbers()
    ensures { FramesAreNumbers }
{}

/// The job of linking a unit of instructions without temporaries is sound.
pub fn jobs_are_sound()
    ensures { JobsAreSound }
{
    said_is_sound();
    said_is_limited();
    said_is_bounded();
    general_bits_are_a_sum();
}

/// No temporary stands in a line of it.
pub fn jobs_are_flat()
    ensures { JobsAreFlat }
{
    said_is_sound();
    said_is_bounded();
}

//! Codes with registers and homes in place of temporaries.

ghost use Rattle.std.specs.Prelude.{◌≡◌, IfOk, Some, []};
ghost use Rattle.md_shapes.specs.Shapes.{Frame};
ghost use Rattle.md_covers.specs.Covers.{frame_in};
ghost use Rattle.temp_shapes.specs.Rows.{AreShapeRows};
ghost use Rattle.temp_laws.specs.Targets.{target_of};
ghost use Rattle.color_graph.specs.Seats.{seats_of};
ghost use Rattle.reg_color.specs.Codes.{IsColoredCode, MayBeColored};

use crate::blocks::blocks_of;
use color_graph::Colouring;
use color_homes::Places;
use color_registers::Registers;
use md_check::Checked;
use rtl_tree::NoMemory;
use rtl_word::Word;
use sqlite_items::Items;
use std::alloc::Global;
use temp_code::Code;
use temp_shapes::ShapeRows;

/// A code with registers in place of its temporaries, by a colouring, and loads and stores for those in their homes, by the rows of the
/// machine's shapes.
pub fn apply_by<W: Word>(
    alloc: Global,
    c: &Code,
    k: &Colouring,
    m: &Checked<W>,
    rows: &ShapeRows,
) -> Result<Code, NoMemory>
    requires rows { AreShapeRows m.now rows.now }
    requires colored { (frame : Frame) → frame_in m.now ≡ Some frame → MayBeColored m.now (target_of m.now frame []) (seats_of k.now) c.now }
    ensures { IfOk result (λ made. (frame : Frame) → frame_in m.now ≡ Some frame
        → IsColoredCode m.now (target_of m.now frame []) (seats_of k.now) c.now made) }
{
    let registers = Registers::new::<W>(alloc, m)?;
    let p = Places {
        rows,
        code: c,
        seats: k.seats.as_slice(),
        scratch: registers.scratch(),
    };
    let blocks = blocks_of::<W>(alloc, m, &p, c.blocks.as_slice())?;
    let homes = Items::from_slice(alloc, c.homes.as_slice())?;
    Ok(Code {
        function: c.function,
        params: c.params,
        frame: c.frame,
        first_home: c.first_home,
        slots: c.slots,
        homes,
        blocks,
    })
}

/// The same, where no table of rows is at hand.
pub fn apply_colours<W: Word>(
    alloc: Global,
    c: &Code,
    k: &Colouring,
    m: &Checked<W>,
) -> Result<Code, NoMemory>
    requires { (frame : Frame) → frame_in m.now ≡ Some frame → MayBeColored m.now (target_of m.now frame []) (seats_of k.now) c.now }
    ensures { IfOk result (λ made. (frame : Frame) → frame_in m.now ≡ Some frame
        → IsColoredCode m.now (target_of m.now frame []) (seats_of k.now) c.now made) }
{
    let rows = ShapeRows::new::<W>(m);
    apply_by::<W>(alloc, c, k, m, &rows)
}

//! A colouring of a code for a described machine.

ghost use Rattle.std.specs.Prelude.{◌≡◌, IfOk, Some, [], length};
ghost use Rattle.md_shapes.specs.Shapes.{Frame};
ghost use Rattle.md_covers.specs.Covers.{frame_in};
ghost use Rattle.temp_code.specs.Routines.{routine_of};
ghost use Rattle.temp_laws.specs.Targets.{target_of};
ghost use Rattle.color_code.specs.Colors.{IsColoring, IsSparing};
ghost use Rattle.color_registers.specs.Registers.{colors_of};
ghost use Rattle.color_graph.specs.Meeting.{HaveHomes};
ghost use Rattle.color_graph.specs.Seats.{seats_of};

use color_graph::{Colouring, colour_by};
use color_registers::Registers;
use flow_blocks::flow;
use live_machine::live;
use md_check::Checked;
use rtl_tree::NoMemory;
use rtl_word::Word;
use std::alloc::Global;
use temp_code::Code;

/// A colouring of a code for a described machine. A temporary is in its home only where it lives over a call or its neighbours hold every colour.
pub fn colour<W: Word>(alloc: Global, c: &Code, m: &Checked<W>) -> Result<Colouring, NoMemory>
    requires homes { HaveHomes (routine_of c.now) }
    ensures count { IfOk result (λ k. length k.seats.items ≡ length (routine_of c.now).homes) }
    ensures coloring { IfOk result (λ k. (frame : Frame) → frame_in m.now ≡ Some frame
        → IsColoring (target_of m.now frame []) (routine_of c.now) (colors_of m.now) (seats_of k)) }
    ensures sparing { IfOk result (λ k. (frame : Frame) → frame_in m.now ≡ Some frame
        → IsSparing (target_of m.now frame []) (routine_of c.now) (colors_of m.now) (seats_of k)) }
{
    let registers = Registers::new::<W>(alloc, m)?;
    let flow = flow::<W>(alloc, c)?;
    let live = live::<W>(alloc, c, &flow, m)?;
    colour_by(alloc, c, &live, registers.colours())
}

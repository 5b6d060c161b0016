//! The flow of a code.

ghost use Rattle.std.specs.Prelude.{IfOk};
ghost use Rattle.temp_code.specs.Routines.{routine_of};
ghost use Rattle.flow_blocks.specs.Flows.{IsFlow};

use crate::flows::Flow;
use crate::labels::positions_by_label;
use crate::predecessors::previous_blocks;
use crate::successors::next_blocks;
use rtl_tree::NoMemory;
use rtl_word::Word;
use std::alloc::Global;
use temp_code::Code;

/// The flow of a code, whose jumps go where the normal form of their value on words of `W` says. Where that holds a number that is no word, and
/// where the code has more blocks than positions, the answer is want of memory.
pub fn flow<W: Word>(alloc: Global, c: &Code) -> Result<Flow, NoMemory>
    ensures { IfOk result (IsFlow W.BITS (routine_of c.now)) }
{
    let blocks = c.blocks.as_slice();
    if blocks.len() > u32::MAX as usize {
        return Err(NoMemory);
    }
    let positions = positions_by_label(alloc, blocks)?;
    let next = next_blocks::<W>(alloc, blocks, &positions)?;
    let previous = previous_blocks(alloc, next.as_slice())?;
    Ok(Flow { next, previous })
}

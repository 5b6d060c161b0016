//! The blocks that may follow a block.

ghost use Rattle.std.specs.Prelude.{◌≡◌, ◌+◌, ◌<◌, ◌^◌, ℕ, IfOk, List, ◌∷◌, length, map};
ghost use Rattle.std.specs.Option.{option_to_list};
ghost use Rattle.temp_machine.specs.Routines.{BasicBlock};
ghost use Rattle.temp_machine.specs.Flow.{positions_by, successors_by, label_of as label_at};
ghost use Rattle.temp_code.specs.Routines.{block_of, exit_of};
ghost use Rattle.flow_blocks.specs.Jumps.{ArePositions};
ghost use Rattle.flow_blocks.specs.Flows.{positions_of as positions_in};
ghost use Rattle.flow_blocks.specs.Making.{AreSuccessors};

use crate::flows::Next;
use crate::jumps::label_of;
use crate::labels::Positions;
use rtl_tree::NoMemory;
use rtl_word::Word;
use sqlite_items::Items;
use std::alloc::Global;
use temp_code::{Block, End, Transfer};

/// The position to which a transfer jumps.
fn target_of<W: Word>(
    alloc: Global,
    positions: &Positions,
    transfer: &Transfer,
) -> Result<Option<u32>, NoMemory>
    ensures { IfOk result (λ at. (blocks : List BasicBlock) → ArePositions blocks positions.now
        → option_to_list at ≡ positions_by blocks (label_at W.BITS transfer.now.what)) }
{
    match label_of::<W>(alloc, &transfer.what)? {
        Some(label) => Ok(Some(positions.find(label))),
        None => Ok(None),
    }
}

fn with_behind(behind: u32, target: Option<u32>) -> Next
    ensures { positions_in result ≡ behind ∷ option_to_list target }
{
    match target {
        Some(target) => Next::Two(behind, target),
        None => Next::One(behind),
    }
}

fn alone(target: Option<u32>) -> Next
    ensures { positions_in result ≡ option_to_list target }
{
    match target {
        Some(target) => Next::One(target),
        None => Next::Nowhere,
    }
}

/// The blocks that may follow one with this end, behind which the block at `behind` stands.
fn next_of<W: Word>(
    alloc: Global,
    positions: &Positions,
    behind: u32,
    end: &End,
) -> Result<Next, NoMemory>
    ensures { IfOk result (λ next. (blocks : List BasicBlock) (k : ℕ) → ArePositions blocks positions.now → behind ≡ 1 + k
        → positions_in next ≡ successors_by W.BITS blocks k (exit_of end.now)) }
{
    match end {
        End::Fall | End::Call(_) => Ok(Next::One(behind)),
        End::Jump(transfer) => Ok(alone(target_of::<W>(alloc, positions, transfer)?)),
        End::Branch(transfer) => {
            let target = target_of::<W>(alloc, positions, transfer)?;
            Ok(with_behind(behind, target))
        }
        End::Return => Ok(Next::Nowhere),
    }
}

/// The successors of each block.
pub(crate) fn next_blocks<W: Word>(
    alloc: Global,
    blocks: &[Block],
    positions: &Positions,
) -> Result<Items<Next>, NoMemory>
    requires few { length blocks.now < 2 ^ 32 }
    requires positions { ArePositions (map block_of blocks.now) positions.now }
    ensures { IfOk result (AreSuccessors W.BITS (map block_of blocks.now)) }
{
    let mut next = Items::new(alloc);
    for at in 0..blocks.len() {
        let behind = at as u32 + 1;
        next.push(next_of::<W>(alloc, positions, behind, &blocks[at].end)?)?;
    }
    Ok(next)
}

//! The position of the block with each label.

ghost use Rattle.std.specs.Prelude.{◌≡◌, ◌<◌, ◌^◌, ℕ, IfOk, length, map};
ghost use Rattle.temp_machine.specs.Machine.{position};
ghost use Rattle.temp_code.specs.Routines.{block_of};
ghost use Rattle.flow_blocks.specs.Jumps.{ArePositions, position_in};

use rtl_tree::NoMemory;
use std::alloc::Global;
use std::collections::HashMap;
use temp_code::Block;

/// Where each label stands first, and the number of blocks, which is given for a label that stands nowhere.
#[derive(Drop)]
pub(crate) struct Positions {
    pub first: HashMap<u32, u32>,
    pub count: u32,
}

impl Positions {
    pub fn find(&self, label: u32) -> u32
        ensures { result ≡ position_in self.now label }
    {
        self.first.get(&label).copied().unwrap_or(self.count)
    }
}

/// The positions of the labels of blocks.
pub(crate) fn positions_by_label(alloc: Global, blocks: &[Block]) -> Result<Positions, NoMemory>
    requires { length blocks.now < 2 ^ 32 }
    ensures { IfOk result (ArePositions (map block_of blocks.now)) }
{
    let mut first = HashMap::new(alloc);
    let mut at = blocks.len();
    while at > 0 {
        at -= 1;
        first.insert(blocks[at].label, at as u32)?;
    }
    Ok(Positions {
        first,
        count: blocks.len() as u32,
    })
}

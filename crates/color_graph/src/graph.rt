//! The conflicts of a code.

ghost use Rattle.std.specs.Prelude.{◌≡◌, ◌<◌, IfOk, length};
ghost use Rattle.temp_machine.specs.Routines.{Target};
ghost use Rattle.temp_code.specs.Routines.{routine_of};
ghost use Rattle.color_code.specs.Greedy.{AreConflicts};
ghost use Rattle.flow_live.specs.Tables.{IsLiveness};
ghost use Rattle.color_graph.specs.Sharing.{conflicts_in, may_share};
ghost use Rattle.color_graph.specs.Meeting.{HaveHomes};

use crate::sharing::full_rows;
use crate::walking::{keep_behind_calls, part_blocks};
use crate::words::{full, has};
use flow_live::Live;
use rtl_tree::NoMemory;
use std::alloc::Global;
use temp_code::Code;

/// For each temporary those that may share its register, and all temporaries but those that live over a call: a bit for each.
#[derive(Drop)]
pub(crate) struct Graph {
    pub rows: Vec<Vec<u64>>,
    pub over_calls: Vec<u64>,
}

/// The conflicts of a code, by what is dead at its places. A code of more blocks or transfers than there are places is answered as want of memory.
pub(crate) fn conflicts(alloc: Global, c: &Code, live: &Live) -> Result<Graph, NoMemory>
    ensures count { IfOk result (λ g. length g.rows.items ≡ length (routine_of c.now).homes) }
    ensures conflicts { IfOk result (λ g. (t : Target) → IsLiveness t (routine_of c.now) live.now → HaveHomes (routine_of c.now)
        → AreConflicts t (routine_of c.now) (conflicts_in g)) }
{
    let blocks = c.blocks.as_slice();
    if blocks.len() > u32::MAX as usize {
        return Err(NoMemory);
    }
    let count = c.homes.len();
    let words = count / 64 + 1;
    let mut rows = full_rows(alloc, count, words)?;
    part_blocks(&mut rows, live, blocks)?;
    let mut over_calls = full(alloc, words)?;
    keep_behind_calls(&mut over_calls, live, blocks);
    Ok(Graph { rows, over_calls })
}

fn has_in(rows: &[Vec<u64>], i: usize, j: usize) -> bool
    requires { i < length rows.now }
    ensures { result ≡ may_share rows.now i j }
{
    has(rows[i].as_slice(), j)
}

impl Graph {
    pub fn lives_over_call(&self, i: usize) -> bool
        ensures { i < length self.now.rows.items → result ≡ (conflicts_in self.now).over_call i }
    {
        !has(self.over_calls.as_slice(), i)
    }

    pub fn conflict(&self, i: usize, j: usize) -> bool
        requires first { i < length self.now.rows.items }
        requires second { j < length self.now.rows.items }
        ensures { result ≡ (conflicts_in self.now).between i j }
    {
        let rows = self.rows.as_slice();
        !(has_in(rows, i, j) && has_in(rows, j, i))
    }
}

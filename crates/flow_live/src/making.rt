//! The making of the table.

ghost use Rattle.std.specs.Prelude.{◌≡◌, ◌<◌, ℕ, Some, IfOk, length, slice_get};
ghost use Rattle.temp_machine.specs.Routines.{Routine, Target};
ghost use Rattle.temp_machine.specs.Live.{IsLiveAfter};
ghost use Rattle.temp_code.specs.Routines.{block_of, routine_of};
ghost use Rattle.flow_blocks.specs.Flows.{IsFlow};
ghost use Rattle.flow_live.specs.Dead.{HoldsDead};
ghost use Rattle.flow_live.specs.Rows.{bits_in, is_held};
ghost use Rattle.flow_live.specs.Walks.{AreRolesOf, HasLowFlags, Stands};
ghost use Rattle.flow_live.specs.Settled.{AreBegins};
ghost use Rattle.flow_live.specs.Tables.{AreBlockRows, AreTables, IsLiveness};

use crate::blocks::go_behind;
use crate::kinds::{Kind, is_in_code};
use crate::rows::Row;
use crate::settling::settle;
use crate::standing::{Roles, Standing, standing_of};
use crate::tables::Live;
use crate::transfers::{go_before_end, go_before_transfer};
use flow_blocks::Flow;
use rtl_tree::NoMemory;
use std::alloc::Global;
use temp_code::{Block, Code};

/// The rows of a block, from that behind its end on, which is given.
fn block_rows(
    alloc: Global,
    standing: &Standing,
    block: &Block,
    mut row: Row,
) -> Result<Vec<Row>, NoMemory>
    ensures { IfOk result (λ rows. (t : Target) (r : Routine) (k : ℕ) → Stands t r standing.now → HasLowFlags r → slice_get r.blocks k ≡ Some (block_of block.now)
        → HoldsDead (is_held (length row.temporaries.items)) (bits_in row) (λ c. IsLiveAfter t r c (record { block = k; at = length block.now.body }))
        → AreBlockRows t r (length row.temporaries.items) k (block_of block.now) rows.items) }
{
    let body = block.body.as_slice();
    let mut rows = Vec::with_capacity(alloc, body.len() + 2)?;
    rows.push(row.copied(alloc)?)?;
    go_before_end(&mut row, standing, &block.end);
    let mut at = body.len();
    while at > 0 {
        rows.push(row.copied(alloc)?)?;
        at -= 1;
        go_before_transfer(&mut row, standing, &body[at]);
    }
    rows.push(row)?;
    Ok(rows)
}

/// The rows of all blocks, from the rows of their begins.
fn all_rows(
    alloc: Global,
    code: &Code,
    flow: &Flow,
    standing: &Standing,
    begins: &[Row],
    words: usize,
) -> Result<Vec<Vec<Row>>, NoMemory>
    ensures { IfOk result (λ table. (t : Target) → Stands t (routine_of code.now) standing.now → HasLowFlags (routine_of code.now)
        → IsFlow t.word (routine_of code.now) flow.now → length begins.now ≡ length code.now.blocks → AreBegins t (routine_of code.now) words begins.now
        → AreTables (length code.now.blocks) t (routine_of code.now) words table.items) }
{
    let blocks = code.blocks.as_slice();
    let mut table = Vec::with_capacity(alloc, blocks.len())?;
    for at in 0..blocks.len() {
        let mut row = Row::full(alloc, words)?;
        go_behind(&mut row, standing, begins, flow.next_at(at));
        table.push(block_rows(alloc, standing, &blocks[at], row)?)?;
    }
    Ok(table)
}

/// The table of a code whose flow is given, on a machine of which `standing` tells.
pub(crate) fn table(
    alloc: Global,
    code: &Code,
    flow: &Flow,
    standing: &Standing,
) -> Result<Live, NoMemory>
    ensures { IfOk result (λ l. (t : Target) → Stands t (routine_of code.now) standing.now → HasLowFlags (routine_of code.now)
        → IsFlow t.word (routine_of code.now) flow.now → IsLiveness t (routine_of code.now) l) }
{
    let words = code.homes.len() / 64 + 1;
    let state = settle(alloc, code, flow, standing, words)?;
    let blocks = all_rows(alloc, code, flow, standing, state.begins.as_slice(), words)?;
    Ok(Live { blocks })
}

/// Which cells are dead at each place of a code, on a machine whose registers have these roles. A code with a flag above 7, which no description
/// has, is answered as want of memory.
pub fn live_by(alloc: Global, c: &Code, f: &Flow, roles: &Roles) -> Result<Live, NoMemory>
    ensures { IfOk result (λ l. (t : Target) → AreRolesOf t roles.now → IsFlow t.word (routine_of c.now) f.now → IsLiveness t (routine_of c.now) l) }
{
    if is_in_code(Kind::HighFlag, c) {
        return Err(NoMemory);
    }
    let standing = standing_of(roles, is_in_code(Kind::Temporary, c));
    let live = table(alloc, c, f, &standing)?;
    Ok(live)
}

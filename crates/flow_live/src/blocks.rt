//! What is dead at the begin of a block.

ghost use Rattle.std.specs.Prelude.{◌≡◌, ◌&&◌, length};
ghost use Rattle.rtl_tree.specs.Sets.{has_cell};
ghost use Rattle.temp_machine.specs.Routines.{Routine, Target};
ghost use Rattle.temp_code.specs.Routines.{block_of};
ghost use Rattle.flow_blocks.specs.Flows.{positions_of};
ghost use Rattle.flow_live.specs.Rows.{Becomes, bits_in};
ghost use Rattle.flow_live.specs.Walks.{Stands, block_dead, dead_at, dead_behind};

use crate::rows::Row;
use crate::standing::Standing;
use crate::transfers::{go_before_end, go_before_transfer};
use flow_blocks::Next;
use temp_code::Block;

/// From what is dead behind a block to what is dead at its begin.
pub(crate) fn go_before_block(row: &mut Row, standing: &Standing, block: &Block)
    ensures words { length row.new.temporaries.items ≡ length row.old.temporaries.items }
    ensures before { (t : Target) (r : Routine) → Stands t r standing.now
        → Becomes (block_dead t r (block_of block.now) (has_cell (bits_in row.old))) (bits_in row.old) (bits_in row.new) }
{
    go_before_end(row, standing, &block.end);
    let body = block.body.as_slice();
    let mut at = body.len();
    while at > 0 {
        at -= 1;
        go_before_transfer(row, standing, &body[at]);
    }
}

/// Keeps what is dead at the begin of a block. Without a row for the block nothing changes.
fn keep_begin(row: &mut Row, begins: &[Row], at: u32)
    ensures { Becomes (λ c. has_cell (bits_in row.old) c && dead_at begins.now at c) (bits_in row.old) (bits_in row.new) }
{
    if let Some(begin) = begins.get(at as usize) {
        row.keep(begin);
    }
}

/// The row of what is dead behind a block, before which begins these blocks may come next.
pub(crate) fn go_behind(row: &mut Row, standing: &Standing, begins: &[Row], next: Next)
    ensures words { length row.new.temporaries.items ≡ length row.old.temporaries.items }
    ensures behind { (t : Target) (r : Routine) → Stands t r standing.now
        → Becomes (dead_behind t r begins.now (positions_of next)) (bits_in row.old) (bits_in row.new) }
{
    row.fill();
    match next {
        Next::Nowhere => {}
        Next::One(next) => {
            keep_begin(row, begins, next);
            row.remove_registers(standing.always);
        }
        Next::Two(behind, target) => {
            keep_begin(row, begins, target);
            keep_begin(row, begins, behind);
            row.remove_registers(standing.always);
        }
    }
}

//! What blocks tell of the temporaries that may share a register.

ghost use Rattle.std.specs.Prelude.{◌≡◌, ◌<◌, ◌^◌, ◌&&◌, ℕ, OnOk, Some, length, map, slice_get};
ghost use Rattle.temp_machine.specs.Routines.{BasicBlock, Routine, Target};
ghost use Rattle.temp_machine.specs.Live.{End as EndItem, item_at};
ghost use Rattle.temp_code.specs.Routines.{block_of, exit_of};
ghost use Rattle.flow_live.specs.Tables.{IsLiveness, set_after};
ghost use Rattle.color_graph.specs.Sharing.{Drops, Parts, may_share, still_shares};
ghost use Rattle.color_graph.specs.Meeting.{is_call as is_call_in};
ghost use Rattle.color_graph.specs.Meeting.{IsLiveBehindCall, IsLiveBehindCalls, MeetsAt, MeetsBefore, MeetsIn, MeetsWithin, place};

use crate::sharing::{part_all, part_set};
use crate::words::keep;
use flow_live::Live;
use rtl_tree::NoMemory;
use temp_code::{Block, End, Transfer};

fn part_transfer(rows: &mut Vec<Vec<u64>>, live: &Live, block: u32, at: u32, transfer: &Transfer)
    ensures count { length rows.new.items ≡ length rows.old.items }
    ensures rows { (i j : ℕ) → may_share rows.new.items i j
        ≡ (may_share rows.old.items i j && still_shares (set_after live.now block at).temps transfer.now.what i j) }
{
    let dead = live.dead_words_after(block, at);
    part_set(rows, transfer.what.list.as_slice(), dead);
}

fn part_body(rows: &mut Vec<Vec<u64>>, live: &Live, block: u32, body: &[Transfer])
    requires { length body.now < 2 ^ 32 }
    ensures count { length rows.new.items ≡ length rows.old.items }
    ensures parts { (t : Target) (r : Routine) (b : BasicBlock) → IsLiveness t r live.now → slice_get r.blocks block ≡ Some b
        → b.body ≡ map (λ t. t.what) body.now
        → Parts (length r.homes) (MeetsBefore (length body.now) t r block) rows.old.items rows.new.items }
{
    for at in 0..body.len() {
        part_transfer(rows, live, block, at as u32, &body[at]);
    }
}

fn part_end(rows: &mut Vec<Vec<u64>>, live: &Live, block: u32, at: u32, end: &End)
    ensures count { length rows.new.items ≡ length rows.old.items }
    ensures parts { (t : Target) (r : Routine) → IsLiveness t r live.now → item_at r (place block at) ≡ Some (EndItem (exit_of end.now))
        → Parts (length r.homes) (MeetsAt t r (place block at)) rows.old.items rows.new.items }
{
    match end {
        End::Fall | End::Return => {}
        End::Jump(transfer) | End::Branch(transfer) | End::Call(transfer) => {
            part_transfer(rows, live, block, at, transfer);
        }
    }
}

fn part_block(rows: &mut Vec<Vec<u64>>, live: &Live, at: u32, block: &Block) -> Result<(), NoMemory>
    ensures count { OnOk result (length rows.new.items ≡ length rows.old.items) }
    ensures parts { OnOk result ((t : Target) (r : Routine) → IsLiveness t r live.now → slice_get r.blocks at ≡ Some (block_of block.now)
        → Parts (length r.homes) (MeetsIn t r at) rows.old.items rows.new.items) }
{
    let body = block.body.as_slice();
    if body.len() > u32::MAX as usize {
        return Err(NoMemory);
    }
    part_all(rows, live.dead_words_at(at));
    part_body(rows, live, at, body);
    part_end(rows, live, at, body.len() as u32, &block.end);
    Ok(())
}

/// Parts the temporaries that are live at once. A block of more transfers than there are places is answered as want of memory.
pub(crate) fn part_blocks(
    rows: &mut Vec<Vec<u64>>,
    live: &Live,
    blocks: &[Block],
) -> Result<(), NoMemory>
    requires { length blocks.now < 2 ^ 32 }
    ensures count { OnOk result (length rows.new.items ≡ length rows.old.items) }
    ensures parts { OnOk result ((t : Target) (r : Routine) → IsLiveness t r live.now → r.blocks ≡ map block_of blocks.now
        → Parts (length r.homes) (MeetsWithin (length blocks.now) t r) rows.old.items rows.new.items) }
{
    for at in 0..blocks.len() {
        part_block(rows, live, at as u32, &blocks[at])?;
    }
    Ok(())
}

fn is_call(end: &End) -> bool
    ensures { result ≡ is_call_in end.now }
{
    matches!(end, End::Call(_))
}

fn keep_behind(words: &mut [u64], live: &Live, blocks: &[Block], at: usize)
    requires few { length blocks.now < 2 ^ 32 }
    requires block { at < length blocks.now }
    ensures { (t : Target) (r : Routine) → IsLiveness t r live.now → r.blocks ≡ map block_of blocks.now
        → Drops (length r.homes) (IsLiveBehindCall t r at) words.old words.new }
{
    let next = at + 1;
    if next < blocks.len() && is_call(&blocks[at].end) {
        keep(words, live.dead_words_at(next as u32));
    }
}

/// Takes out the temporaries that live over a call.
pub(crate) fn keep_behind_calls(words: &mut [u64], live: &Live, blocks: &[Block])
    requires few { length blocks.now < 2 ^ 32 }
    ensures { (t : Target) (r : Routine) → IsLiveness t r live.now → r.blocks ≡ map block_of blocks.now
        → Drops (length r.homes) (IsLiveBehindCalls (length blocks.now) t r) words.old words.new }
{
    for at in 0..blocks.len() {
        keep_behind(words, live, blocks, at);
    }
}

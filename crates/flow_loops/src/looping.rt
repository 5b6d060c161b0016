//! The loops of a code.

ghost use Rattle.std.specs.Prelude.{◌≡◌, ◌<◌, ◌≤◌, ◌+◌, ◌++◌, ◌^◌, ◌-◌, map, length, ℕ, suc, [], if◌then◌else◌, IfOk, OnOk};
ghost use Rattle.std.specs.List.{list_all};
ghost use Rattle.temp_code.specs.Routines.{block_of, exit_of, routine_of};
ghost use Rattle.flow_blocks.specs.Flows.{IsFlow};
ghost use Rattle.flow_loops.specs.Loops.{AreLoops};
ghost use Rattle.flow_loops.specs.Looping.{closes_loop as closing, falls_at, is_entered_once as entered_once, is_fall as fall, is_near as near, marks_at, marks_to};

use flow_blocks::Flow;
use rtl_tree::NoMemory;
use std::alloc::Global;
use temp_code::{Block, Code, End, LoopMark};

fn is_fall(end: &End) -> bool
    ensures { result ≡ fall (exit_of end.now) }
{
    matches!(end, End::Fall)
}

fn falls(blocks: &[Block], at: usize) -> bool
    ensures { result ≡ falls_at (map block_of blocks.now) at }
{
    match blocks.get(at) {
        Some(block) => is_fall(&block.end),
        None => false,
    }
}

fn is_near(first: u32, last: u32, block: u32) -> bool
    requires { 0 < first }
    ensures { result ≡ near first last block }
{
    block == first - 1 || first <= block && block <= last
}

/// Whether each of these blocks lies in the run from `first` to `last` or is the one before it.
fn are_near(first: u32, last: u32, blocks: &[u32]) -> bool
    requires { 0 < first }
    ensures { result ≡ list_all (near first last) blocks.now }
{
    for i in 0..blocks.len() {
        if !is_near(first, last, blocks[i]) {
            return false;
        }
    }
    true
}

/// Whether all that leads into the run of blocks from `first` to `last` lies in it or is the block before it.
fn is_entered_once(f: &Flow, first: u32, last: u32) -> bool
    requires first { 0 < first }
    requires order { first ≤ last }
    ensures { result ≡ entered_once f.now first last }
{
    let mut k = first as usize;
    while k <= last as usize {
        if !are_near(first, last, f.previous_at(k)) {
            return false;
        }
        k += 1;
    }
    true
}

fn closes_loop(f: &Flow, first: u32, last: u32) -> bool
    requires { 0 < first }
    ensures { result ≡ closing f.now first last }
{
    if last < first {
        return false;
    }
    is_entered_once(f, first, last)
}

/// Adds the loops that begin at a block.
fn add_loops(f: &Flow, first: u32, marks: &mut Vec<LoopMark>) -> Result<(), NoMemory>
    requires { 0 < first }
    ensures { OnOk result (marks.new.items ≡ marks.old.items ++ marks_at f.now first) }
{
    let ends = f.previous_at(first as usize);
    for i in 0..ends.len() {
        if closes_loop(f, first, ends[i]) {
            marks.push(LoopMark {
                before: first - 1,
                first,
                last: ends[i],
            })?;
        }
    }
    Ok(())
}

/// Adds the loops that begin behind a block, if that falls.
fn add_loops_behind(
    f: &Flow,
    blocks: &[Block],
    before: u32,
    marks: &mut Vec<LoopMark>,
) -> Result<(), NoMemory>
    requires { before + 1 < 2 ^ 32 }
    ensures { OnOk result (marks.new.items ≡ marks.old.items ++ (if falls_at (map block_of blocks.now) before then marks_at f.now (suc before) else [])) }
{
    if !falls(blocks, before as usize) {
        return Ok(());
    }
    add_loops(f, before + 1, marks)
}

/// The loops of a code whose flow is `f`, by their first block and then by their last.
pub fn loops(alloc: Global, c: &Code, f: &Flow) -> Result<Vec<LoopMark>, NoMemory>
    ensures { IfOk result (λ marks. (w : ℕ) → IsFlow w (routine_of c.now) f.now → AreLoops w (routine_of c.now) marks.items) }
{
    let blocks = c.blocks.as_slice();
    if blocks.len() > u32::MAX as usize {
        return Err(NoMemory);
    }
    let mut marks = Vec::new(alloc);
    for before in 0..blocks.len().saturating_sub(1) {
        add_loops_behind(f, blocks, before as u32, &mut marks)?;
    }
    Ok(marks)
}

//! The blocks that lead to a block.

ghost use Rattle.std.specs.Prelude.{◌≡◌, ◌<◌, ◌^◌, ◌==◌, ◌&&◌, nat_lt, ℕ, IfOk, OnOk, List, [], length};
ghost use Rattle.flow_blocks.specs.Flows.{positions_of as positions_in};
ghost use Rattle.flow_blocks.specs.Making.{ArePreviousTo, is_among, listed, with_one};

use crate::flows::Next;
use rtl_tree::NoMemory;
use std::alloc::Global;

/// So many empty lists.
fn empty_lists(alloc: Global, count: usize) -> Result<Vec<Vec<u32>>, NoMemory>
    ensures count { IfOk result (λ lists. length lists.items ≡ count) }
    ensures empty { IfOk result (λ lists. (k : ℕ) → listed lists.items k ≡ []) }
{
    let mut lists = Vec::new(alloc);
    while lists.len() < count {
        lists.push(Vec::new(alloc))?;
    }
    Ok(lists)
}

/// Puts a position at the end of a list, if that is there.
fn put(lists: &mut Vec<Vec<u32>>, at: u32, from: u32) -> Result<(), NoMemory>
    ensures count { OnOk result (length lists.new.items ≡ length lists.old.items) }
    ensures lists { OnOk result ((k : ℕ) → listed lists.new.items k
        ≡ with_one ((at == k) && nat_lt k (length lists.old.items)) (listed lists.old.items k) from) }
{
    let at = at as usize;
    if at < lists.len() {
        lists[at].push(from)?;
    }
    Ok(())
}

/// Puts a position at the end of the list of each of its successors.
fn note(lists: &mut Vec<Vec<u32>>, next: Next, from: u32) -> Result<(), NoMemory>
    ensures count { OnOk result (length lists.new.items ≡ length lists.old.items) }
    ensures lists { OnOk result ((k : ℕ) → listed lists.new.items k
        ≡ with_one (is_among k (positions_in next) && nat_lt k (length lists.old.items)) (listed lists.old.items k) from) }
{
    match next {
        Next::Nowhere => Ok(()),
        Next::One(k) => put(lists, k, from),
        Next::Two(j, k) if j == k => put(lists, k, from),
        Next::Two(j, k) => {
            put(lists, j, from)?;
            put(lists, k, from)
        }
    }
}

/// The predecessors of each block, from the successors of each.
pub(crate) fn previous_blocks(alloc: Global, next: &[Next]) -> Result<Vec<Vec<u32>>, NoMemory>
    requires { length next.now < 2 ^ 32 }
    ensures previous { IfOk result (λ lists. ArePreviousTo (length next.now) (length next.now) next.now (listed lists.items)) }
    ensures count { IfOk result (λ lists. length lists.items ≡ length next.now) }
{
    let mut lists = empty_lists(alloc, next.len())?;
    for at in 0..next.len() {
        note(&mut lists, next[at], at as u32)?;
    }
    Ok(lists)
}

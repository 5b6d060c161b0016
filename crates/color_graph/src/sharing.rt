//! What a transfer tells of the temporaries that may share a register.

ghost use Rattle.std.specs.Prelude.{◌≡◌, ◌<◌, ◌/◌, ◌==◌, ◌&&◌, ◌||◌, not, ℕ, true, IfOk, [], length};
ghost use Rattle.rtl_tree.specs.declared.cells.Cell.TheVariants.{Temp};
ghost use Rattle.rtl_tree.specs.Moves.{goal_of};
ghost use Rattle.rtl_tree.specs.Same.{same_cell};
ghost use Rattle.temp_machine.specs.Cells.{sets_by, some_set};
ghost use Rattle.flow_live.specs.Rows.{has_temporary};
ghost use Rattle.color_graph.specs.Sharing.{is_untouched, may_share, still_shares};

use crate::words::{full, has, keep, remove};
use rtl_tree::{Assign, Cell, NoMemory, Place};
use std::alloc::Global;

/// Rows that part no temporaries.
pub(crate) fn full_rows(
    alloc: Global,
    count: usize,
    words: usize,
) -> Result<Vec<Vec<u64>>, NoMemory>
    ensures count { IfOk result (λ rows. length rows.items ≡ count) }
    ensures full { IfOk result (λ rows. (i j : ℕ) → i < count → j / 64 < words → may_share rows.items i j ≡ true) }
{
    let mut rows = Vec::new(alloc);
    while rows.len() < count {
        rows.push(full(alloc, words)?)?;
    }
    Ok(rows)
}

fn remove_cell(words: &mut [u64], cell: Cell)
    ensures { (k : ℕ) → has_temporary words.new k ≡ (has_temporary words.old k && not (same_cell (Temp k) cell)) }
{
    match cell {
        Cell::Temp(n) => remove(words, usize::from(n)),
        _ => {}
    }
}

fn remove_goal(words: &mut [u64], to: &Place)
    ensures { (k : ℕ) → has_temporary words.new k ≡ (has_temporary words.old k && not (sets_by (same_cell (Temp k)) (goal_of to.now))) }
{
    match to {
        Place::Cell(cell) => remove_cell(words, *cell),
        Place::Mem(_, _) => {}
    }
}

/// Takes out the temporaries that a transfer sets.
fn remove_set(words: &mut [u64], moves: &[Assign])
    ensures { (k : ℕ) → has_temporary words.new k ≡ (has_temporary words.old k && not (some_set (same_cell (Temp k)) moves.now)) }
{
    match moves {
        [] => {}
        [first, rest @ ..] => {
            remove_goal(words, &first.to);
            remove_set(words, rest);
        }
    }
}

/// Leaves in a row the temporaries that are dead behind a transfer and that it doesn't set.
fn keep_untouched(row: &mut [u64], moves: &[Assign], dead: &[u64])
    ensures { (j : ℕ) → has_temporary row.new j ≡ (has_temporary row.old j && is_untouched dead.now moves.now j) }
{
    keep(row, dead);
    remove_set(row, moves);
}

/// Parts a temporary from those that are live behind a transfer or set by it.
pub(crate) fn part(rows: &mut Vec<Vec<u64>>, at: usize, moves: &[Assign], dead: &[u64])
    ensures count { length rows.new.items ≡ length rows.old.items }
    ensures rows { (i j : ℕ) → may_share rows.new.items i j
        ≡ (may_share rows.old.items i j && (not (i == at) || is_untouched dead.now moves.now j)) }
{
    if at < rows.len() {
        keep_untouched(&mut rows[at], moves, dead);
    }
}

fn part_cell(rows: &mut Vec<Vec<u64>>, cell: Cell, moves: &[Assign], dead: &[u64])
    ensures count { length rows.new.items ≡ length rows.old.items }
    ensures rows { (i j : ℕ) → may_share rows.new.items i j
        ≡ (may_share rows.old.items i j && (not (same_cell (Temp i) cell) || is_untouched dead.now moves.now j)) }
{
    match cell {
        Cell::Temp(n) => part(rows, usize::from(n), moves, dead),
        _ => {}
    }
}

fn part_goal(rows: &mut Vec<Vec<u64>>, to: &Place, moves: &[Assign], dead: &[u64])
    ensures count { length rows.new.items ≡ length rows.old.items }
    ensures rows { (i j : ℕ) → may_share rows.new.items i j
        ≡ (may_share rows.old.items i j && (not (sets_by (same_cell (Temp i)) (goal_of to.now)) || is_untouched dead.now moves.now j)) }
{
    match to {
        Place::Cell(cell) => part_cell(rows, *cell, moves, dead),
        Place::Mem(_, _) => {}
    }
}

fn part_each(rows: &mut Vec<Vec<u64>>, of: &[Assign], moves: &[Assign], dead: &[u64])
    ensures count { length rows.new.items ≡ length rows.old.items }
    ensures rows { (i j : ℕ) → may_share rows.new.items i j
        ≡ (may_share rows.old.items i j && (not (some_set (same_cell (Temp i)) of.now) || is_untouched dead.now moves.now j)) }
{
    match of {
        [] => {}
        [first, rest @ ..] => {
            part_goal(rows, &first.to, moves, dead);
            part_each(rows, rest, moves, dead);
        }
    }
}

/// Parts each temporary that a transfer sets from those that are live behind it or set by it too.
pub(crate) fn part_set(rows: &mut Vec<Vec<u64>>, moves: &[Assign], dead: &[u64])
    ensures count { length rows.new.items ≡ length rows.old.items }
    ensures rows { (i j : ℕ) → may_share rows.new.items i j ≡ (may_share rows.old.items i j && still_shares dead.now moves.now i j) }
{
    part_each(rows, moves, moves, dead);
}

fn part_live(rows: &mut Vec<Vec<u64>>, at: usize, dead: &[u64])
    ensures count { length rows.new.items ≡ length rows.old.items }
    ensures rows { (i j : ℕ) → may_share rows.new.items i j
        ≡ (may_share rows.old.items i j && (not (i == at) || (has_temporary dead.now i || has_temporary dead.now j))) }
{
    if !has(dead, at) {
        part(rows, at, &[], dead);
    }
}

/// Parts the temporaries that are live from each other.
pub(crate) fn part_all(rows: &mut Vec<Vec<u64>>, dead: &[u64])
    ensures count { length rows.new.items ≡ length rows.old.items }
    ensures rows { (i j : ℕ) → may_share rows.new.items i j
        ≡ (may_share rows.old.items i j && (has_temporary dead.now i || has_temporary dead.now j)) }
{
    for at in 0..rows.len() {
        part_live(rows, at, dead);
    }
}

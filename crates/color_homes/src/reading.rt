//! Whether a transfer reads or sets a temporary.

ghost use Rattle.std.specs.Prelude.{◌≡◌, ◌||◌, ◌++◌, [], ◌∷◌, filter, IfOk};
ghost use Rattle.rtl_tree.specs.declared.cells.Cell.TheVariants.{Temp};
ghost use Rattle.rtl_tree.specs.Trees.{tree_of};
ghost use Rattle.rtl_tree.specs.Same.{same_cell};
ghost use Rattle.temp_machine.specs.Cells.{reads as reads_in, sets as sets_in, sets_by, some_cell, some_goal_cell};

use rtl_tree::{Assign, Cell, Effects, Expr, NoMemory, Place, is_same};
use smallvec::SmallVec;
use std::alloc::Global;

fn is_in_tree(k: u16, e: &Expr) -> bool
    ensures { result ≡ some_cell (same_cell (Temp k)) (tree_of e.now) }
{
    match e {
        Expr::Cell(cell) => is_same(Cell::Temp(k), *cell),
        Expr::Mem(_, a) | Expr::Un(_, a) => is_in_tree(k, a),
        Expr::Bin(_, a, b) => is_in_tree(k, a) || is_in_tree(k, b),
        _ => false,
    }
}

fn is_read_for_place(k: u16, assign: &Assign) -> bool
    ensures { result ≡ some_goal_cell (same_cell (Temp k)) assign.now.to }
{
    match &assign.to {
        Place::Cell(_) => false,
        Place::Mem(_, address) => is_in_tree(k, address),
    }
}

fn is_read_by(k: u16, assign: &Assign) -> bool
    ensures { result ≡ (some_goal_cell (same_cell (Temp k)) assign.now.to || some_cell (same_cell (Temp k)) assign.now.value) }
{
    is_read_for_place(k, assign) || is_in_tree(k, &assign.value)
}

fn is_set_by(k: u16, assign: &Assign) -> bool
    ensures { result ≡ sets_by (same_cell (Temp k)) assign.now.to }
{
    match &assign.to {
        Place::Cell(cell) => is_same(Cell::Temp(k), *cell),
        Place::Mem(_, _) => false,
    }
}

fn reads(k: u16, moves: &[Assign]) -> bool
    ensures { result ≡ reads_in (Temp k) moves.now }
{
    match moves {
        [] => false,
        [first, rest @ ..] => is_read_by(k, first) || reads(k, rest),
    }
}

fn sets(k: u16, moves: &[Assign]) -> bool
    ensures { result ≡ sets_in (Temp k) moves.now }
{
    match moves {
        [] => false,
        [first, rest @ ..] => is_set_by(k, first) || sets(k, rest),
    }
}

fn with_read(
    mut those: SmallVec<u16, 8>,
    k: u16,
    moves: &[Assign],
) -> Result<SmallVec<u16, 8>, NoMemory>
    ensures { IfOk result (λ more. more.items ≡ those.items ++ filter (λ k. reads_in (Temp k) moves.now) (k ∷ [])) }
{
    if reads(k, moves) {
        those.push(k)?;
    }
    Ok(those)
}

fn all_read(alloc: Global, list: &[u16], moves: &[Assign]) -> Result<SmallVec<u16, 8>, NoMemory>
    ensures { IfOk result (λ those. those.items ≡ filter (λ k. reads_in (Temp k) moves.now) list.now) }
{
    let mut those = SmallVec::new(alloc);
    for k in list {
        those = with_read(those, *k, moves)?;
    }
    Ok(those)
}

/// The temporaries of a list that a transfer reads.
pub(crate) fn those_read(
    alloc: Global,
    list: &[u16],
    effects: &Effects,
) -> Result<SmallVec<u16, 8>, NoMemory>
    ensures { IfOk result (λ those. those.items ≡ filter (λ k. reads_in (Temp k) effects.now) list.now) }
{
    all_read(alloc, list, effects.list.as_slice())
}

fn with_set(
    mut those: SmallVec<u16, 8>,
    k: u16,
    moves: &[Assign],
) -> Result<SmallVec<u16, 8>, NoMemory>
    ensures { IfOk result (λ more. more.items ≡ those.items ++ filter (λ k. sets_in (Temp k) moves.now) (k ∷ [])) }
{
    if sets(k, moves) {
        those.push(k)?;
    }
    Ok(those)
}

fn all_set(alloc: Global, list: &[u16], moves: &[Assign]) -> Result<SmallVec<u16, 8>, NoMemory>
    ensures { IfOk result (λ those. those.items ≡ filter (λ k. sets_in (Temp k) moves.now) list.now) }
{
    let mut those = SmallVec::new(alloc);
    for k in list {
        those = with_set(those, *k, moves)?;
    }
    Ok(those)
}

/// The temporaries of a list that a transfer sets.
pub(crate) fn those_set(
    alloc: Global,
    list: &[u16],
    effects: &Effects,
) -> Result<SmallVec<u16, 8>, NoMemory>
    ensures { IfOk result (λ those. those.items ≡ filter (λ k. sets_in (Temp k) effects.now) list.now) }
{
    all_set(alloc, list, effects.list.as_slice())
}

//! The label to which a transfer jumps.

ghost use Rattle.std.specs.Prelude.{◌≡◌, IfOk, IsTrue, Some};
ghost use Rattle.std.specs.Option.{option_map};
ghost use Rattle.rtl_tree.specs.declared.cells.Cell.TheVariants.{Pc};
ghost use Rattle.rtl_tree.specs.Trees.{tree_of};
ghost use Rattle.rtl_tree.specs.Moves.{goal_of};
ghost use Rattle.rtl_tree.specs.Sorts.{IsFitting};
ghost use Rattle.rtl_effect.specs.Effects.{assigned};
ghost use Rattle.rtl_norm.specs.Normal.{norm};
ghost use Rattle.temp_machine.specs.Flow.{label_by, label_of as label_at};
ghost use Rattle.flow_blocks.specs.Jumps.{block_label_in, is_counter};

use rtl_simplify::normalise;
use rtl_tree::{Assign, BinOp, Cell, Effects, Expr, Lab, NoMemory, Place, copy};
use rtl_word::Word;
use std::alloc::Global;

fn block_label(e: &Expr) -> Option<u32>
    ensures { result ≡ block_label_in (tree_of e.now) }
{
    match e {
        Expr::Label(Lab::Block(label)) => Some(*label),
        _ => None,
    }
}

/// The label in the value of a jump as it stands, be it on a condition.
fn label_in(e: &Expr) -> Option<u32>
    ensures { result ≡ label_by (Some (tree_of e.now)) }
{
    match e {
        Expr::Label(Lab::Block(label)) => Some(*label),
        Expr::Bin(BinOp::When, _, target) => block_label(target),
        _ => None,
    }
}

/// Whether the numbers in a tree are words.
fn is_fitting<W: Word>(e: &Expr) -> bool
    ensures { IsTrue result → IsFitting W.BITS (tree_of e.now) }
{
    match e {
        Expr::Num(n) => u64::from(*n) < 1 << W::BITS,
        Expr::Mem(_, a) | Expr::Un(_, a) => is_fitting::<W>(a),
        Expr::Bin(_, a, b) => is_fitting::<W>(a) && is_fitting::<W>(b),
        _ => true,
    }
}

/// The label in the normal form of a value. Want of memory is also the answer where a number in it is no word.
fn label_of_other<W: Word>(alloc: Global, value: &Expr) -> Result<Option<u32>, NoMemory>
    ensures { IfOk result (λ label. label ≡ label_by (Some (norm W.BITS (tree_of value.now)))) }
{
    if !is_fitting::<W>(value) {
        return Err(NoMemory);
    }
    let mut normal = copy(alloc, value)?;
    normalise::<W>(&mut normal);
    Ok(label_in(&normal))
}

/// The label to which a value of the program counter goes. The usual forms are read as they stand.
fn label_of_value<W: Word>(alloc: Global, value: &Expr) -> Result<Option<u32>, NoMemory>
    ensures { IfOk result (λ label. label ≡ label_by (Some (norm W.BITS (tree_of value.now)))) }
{
    match label_in(value) {
        Some(label) => Ok(Some(label)),
        None => label_of_other::<W>(alloc, value),
    }
}

fn counts(place: &Place) -> bool
    ensures { result ≡ is_counter (goal_of place.now) }
{
    matches!(place, Place::Cell(Cell::Pc))
}

/// The value that goes to the program counter.
fn counter_value(moves: &[Assign]) -> Option<&Expr>
    ensures { option_map (λ e. tree_of e.now) result ≡ assigned moves.now Pc }
{
    for i in 0..moves.len() {
        let assign = &moves[i];
        if counts(&assign.to) {
            return Some(&assign.value);
        }
    }
    None
}

/// The label of a block to which a transfer jumps, be it on a condition.
pub(crate) fn label_of<W: Word>(alloc: Global, transfer: &Effects) -> Result<Option<u32>, NoMemory>
    ensures { IfOk result (λ label. label ≡ label_at W.BITS transfer.now) }
{
    match counter_value(transfer.list.as_slice()) {
        Some(value) => label_of_value::<W>(alloc, value),
        None => Ok(None),
    }
}

//! Trees with leaves in place of their holes.

ghost use Rattle.std.specs.Prelude.{◌≡◌, IfOk, slice_get, unwrap_or};
ghost use Rattle.rtl_tree.specs.Trees.{tree_of, NoPair};
ghost use Rattle.md_text.specs.Expansion.{with_leaves};
ghost use Rattle.md_expand.specs.Seen.{trees_of};

use crate::leaves::Meaning;
use rtl_tree::{Cell, Expr, NoMemory, copy};
use std::alloc::Global;

/// A copy of the leaf at a place, and `lost` where there is none.
pub fn leaf_at(alloc: Global, leaves: &[Meaning], place: u8) -> Result<Expr, NoMemory>
    ensures { IfOk result (λ t. tree_of t ≡ unwrap_or (slice_get (trees_of leaves.now) place) NoPair) }
{
    match leaves.get(usize::from(place)) {
        Some(leaf) => copy(alloc, &leaf.tree),
        None => Ok(Expr::Lost),
    }
}

/// A tree with leaves in place of its holes, by their numbers.
pub fn with_leaves(alloc: Global, leaves: &[Meaning], tree: &Expr) -> Result<Expr, NoMemory>
    ensures { IfOk result (λ t. tree_of t ≡ with_leaves (trees_of leaves.now) (tree_of tree.now)) }
{
    match tree {
        Expr::Cell(Cell::Hole(place)) => leaf_at(alloc, leaves, *place),
        Expr::Mem(width, a) => {
            let a = with_leaves(alloc, leaves, a)?;
            Ok(Expr::Mem(*width, Box::new(alloc, a)?))
        }
        Expr::Un(operator, a) => {
            let a = with_leaves(alloc, leaves, a)?;
            Ok(Expr::Un(*operator, Box::new(alloc, a)?))
        }
        Expr::Bin(operator, a, b) => {
            let a = with_leaves(alloc, leaves, a)?;
            let b = with_leaves(alloc, leaves, b)?;
            let a = Box::new(alloc, a)?;
            Ok(Expr::Bin(*operator, a, Box::new(alloc, b)?))
        }
        _ => copy(alloc, tree),
    }
}

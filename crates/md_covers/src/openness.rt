//! Whether numbers stand in a row but in holes.

ghost use Rattle.std.specs.Prelude.{◌≡◌, ◌↔◌, IsTrue, All, true};
ghost use Rattle.rtl_tree.specs.Trees.{tree_of};
ghost use Rattle.rtl_tree.specs.Moves.{goal_of};
ghost use Rattle.md_match.specs.Searches.{goal_tree, traps_pass};
ghost use Rattle.md_covers.specs.Numbers.{is_open as open_tree, is_open_move as open_move};

use md_match::{can_binary_trap, can_unary_trap};
use rtl_tree::{Assign, Cell, Expr, Place};

// Whether no number stands in a tree but in holes.
fn is_open(e: &Expr) -> bool
    ensures { result ≡ open_tree (tree_of e.now) }
{
    match e {
        Expr::Num(_) => false,
        Expr::Mem(_, a) | Expr::Un(_, a) => is_open(a),
        Expr::Bin(_, a, b) => is_open(a) && is_open(b),
        _ => true,
    }
}

// Whether none stands in the nodes of a tree that can trap.
fn are_traps_open(e: &Expr) -> bool
    ensures { result ≡ traps_pass open_tree (tree_of e.now) }
{
    match e {
        Expr::Mem(_, a) => is_open(e) && are_traps_open(a),
        Expr::Un(o, a) => {
            if can_unary_trap(*o) && !is_open(e) {
                return false;
            }
            are_traps_open(a)
        }
        Expr::Bin(o, a, b) => {
            if can_binary_trap(*o) && !is_open(e) {
                return false;
            }
            are_traps_open(a) && are_traps_open(b)
        }
        _ => true,
    }
}

fn is_open_place(to: &Place) -> bool
    ensures { result ≡ open_tree (goal_tree (goal_of to.now)) }
{
    match to {
        Place::Cell(_) => true,
        Place::Mem(_, at) => is_open(at),
    }
}

// Whether no number stands in an assignment but in holes; where it goes to a flag, only in the nodes that can trap.
fn is_open_move(assign: &Assign) -> bool
    ensures { result ≡ open_move assign.now.to assign.now.value }
{
    match &assign.to {
        Place::Cell(Cell::Flag(_)) => are_traps_open(&assign.value),
        to => is_open_place(to) && is_open(&assign.value),
    }
}

/// Whether all assignments of a row are so.
pub(crate) fn are_open(row: &[Assign]) -> bool
    ensures { IsTrue result ↔ All (λ r. open_move r.to r.value ≡ true) row.now }
{
    row.iter().all(|r| is_open_move(r))
}

//! Whether a label stands in a tree or a transfer.

ghost use Rattle.std.specs.Prelude.{◌≡◌, ◌&&◌, List};
ghost use Rattle.std.specs.Option.{option_map};
ghost use Rattle.std.specs.List.{list_all};
ghost use Rattle.rtl_tree.specs.Trees.{tree_of};
ghost use Rattle.rtl_tree.specs.Moves.{goal_of};
ghost use Rattle.md_text.specs.Forms.{has_no_label, goal_has_no_label};

use md_forms::Said;
use rtl_tree::{Expr, Place};

/// Whether no label stands in the tree.
pub fn has_no_label(tree: &Expr) -> bool
    ensures { result ≡ has_no_label (tree_of tree.now) }
{
    match tree {
        Expr::Label(_) => false,
        Expr::Mem(_, address) => has_no_label(address),
        Expr::Un(_, operand) => has_no_label(operand),
        Expr::Bin(_, left, right) => has_no_label(left) && has_no_label(right),
        _ => true,
    }
}

fn place_has_no_label(place: &Option<Place>) -> bool
    ensures { result ≡ goal_has_no_label (option_map goal_of place.now) }
{
    match place {
        Some(Place::Mem(_, address)) => has_no_label(address),
        Some(Place::Cell(_)) => true,
        None => true,
    }
}

fn said_has_no_label(said: &Said) -> bool
    ensures { result ≡ (goal_has_no_label said.now.to && has_no_label said.now.value) }
{
    place_has_no_label(&said.to) && has_no_label(&said.value)
}

/// Whether no label stands in the assignments.
pub fn have_no_label(moves: &[Said]) -> bool
    ensures { result ≡ list_all (λ m. goal_has_no_label m.to && has_no_label m.value) moves.now }
{
    moves.iter().all(|said| said_has_no_label(said))
}

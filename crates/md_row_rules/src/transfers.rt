//! Whether the transfer of a row without modes is good.

ghost use Rattle.std.specs.Prelude.{◌≡◌, ◌↔◌, ◌≤◌, true, false, IsTrue, All, AllPairs, count_by};
ghost use Rattle.std.specs.List.{list_any};
ghost use Rattle.rtl_tree.specs.Trees.{tree_of};
ghost use Rattle.rtl_tree.specs.Moves.{goal_of};
ghost use Rattle.rtl_tree.specs.WellFormed.{is_store, IsPlaced, same_goal_cell};
ghost use Rattle.md_text.specs.Rules.{is_temporary, cells_in, cells_of_goal, HasGoodTransfer};
ghost use Rattle.md_text.specs.Expansion.{Expanded as Row};
ghost use Rattle.md_expand.specs.Expanded.{IsExpanded};
ghost use Rattle.md_row_rules.specs.Goods.{filled_apart, same_place, uses_temporary, AreGood, IsGood};

use md_expand::{Expanded, Filled};
use rtl_tree::{Cell, Construct, Expr, Place, is_placed, is_root, is_to_memory, is_to_same_cell};

/// The most assignments of a transfer.
const MOST_ASSIGNMENTS: usize = 6;

fn are_placed(list: &[Filled]) -> bool
    ensures { IsTrue result ↔ All (λ f. IsPlaced f.assign) list.now }
{
    list.iter().all(|filled| is_placed(&filled.assign))
}

fn has_one_store(list: &[Filled]) -> bool
    ensures { IsTrue result ↔ (count_by (λ f. is_store f.assign.to) list.now ≤ 1) }
{
    list.iter()
        .filter(|filled| is_to_memory(&filled.assign))
        .count()
        <= 1
}

fn is_to_same_place(a: &Filled, b: &Filled) -> bool
    ensures { result ≡ same_place a.now.register b.now.register (same_goal_cell a.now.assign.to b.now.assign.to) }
{
    match (a.register, b.register) {
        (Some(m), Some(n)) => m == n,
        _ => is_to_same_cell(&a.assign, &b.assign),
    }
}

fn is_apart(a: &Filled, b: &Filled) -> bool
    ensures { result ≡ filled_apart a.now b.now }
{
    let both_take = is_root(&a.assign.value, Construct::Taken)
        && is_root(&b.assign.value, Construct::Taken);
    !is_to_same_place(a, b) && !both_take
}

fn is_apart_from(a: &Filled, list: &[Filled]) -> bool
    ensures { IsTrue result ↔ All (λ g. filled_apart a.now g ≡ true) list.now }
{
    list.iter().all(|b| is_apart(a, b))
}

// Whether no two assignments set one cell.
fn is_once(list: &[Filled]) -> bool
    ensures { IsTrue result ↔ AllPairs (λ f g. filled_apart f g ≡ true) list.now }
{
    match list {
        [] => true,
        [first, rest @ ..] => is_apart_from(first, rest) && is_once(rest),
    }
}

fn is_temporary(cell: Cell) -> bool
    ensures { result ≡ is_temporary cell }
{
    matches!(cell, Cell::Temp(_))
}

fn has_temporary(tree: &Expr) -> bool
    ensures { result ≡ list_any is_temporary (cells_in (tree_of tree.now)) }
{
    match tree {
        Expr::Cell(cell) => is_temporary(*cell),
        Expr::Mem(_, a) | Expr::Un(_, a) => has_temporary(a),
        Expr::Bin(_, a, b) => has_temporary(a) || has_temporary(b),
        _ => false,
    }
}

fn is_for_temporary(place: &Place) -> bool
    ensures { result ≡ list_any is_temporary (cells_of_goal (goal_of place.now)) }
{
    match place {
        Place::Cell(cell) => is_temporary(*cell),
        Place::Mem(_, address) => has_temporary(address),
    }
}

fn uses_temporary(filled: &Filled) -> bool
    ensures { result ≡ uses_temporary filled.now }
{
    is_for_temporary(&filled.assign.to) || has_temporary(&filled.assign.value)
}

fn use_temporaries(list: &[Filled]) -> bool
    ensures { result ≡ list_any uses_temporary list.now }
{
    list.iter().any(|filled| uses_temporary(filled))
}

fn are_good(list: &[Filled]) -> bool
    ensures { IsTrue result ↔ AreGood list.now }
{
    !list.is_empty()
        && list.len() <= MOST_ASSIGNMENTS
        && are_placed(list)
        && is_once(list)
        && has_one_store(list)
        && !use_temporaries(list)
}

fn is_good(transfer: &Option<Vec<Filled>>) -> bool
    ensures { IsTrue result ↔ IsGood transfer.now }
{
    match transfer {
        Some(list) => are_good(list),
        None => false,
    }
}

/// Whether a row has places for its goals, a well-formed transfer and no temporary in it.
pub fn has_good_transfer(row: &Expanded) -> bool
    ensures { (r : Row) → IsExpanded r row.now → IsTrue result ↔ HasGoodTransfer r }
{
    is_good(&row.transfer)
}

//! Well-formed transfers.

ghost use Rattle.std.specs.Prelude.{IsTrue, count_by, nat_le, ◌↔◌, ◌≡◌, ◌≤◌, true, All, AllPairs};
ghost use Rattle.rtl_tree.specs.Trees.{tree_of};
ghost use Rattle.rtl_tree.specs.WellFormed.{compares_for_flag, depth, free_of_both, is_shallow, is_store, IsPlaced, IsWellFormed, jumps_by_counter, reads_no_output, same_goal_cell, set_apart, takes_for_register, tests_flags};

use crate::cells::{Cell, is_same};
use crate::constructs::{Construct, are_flags_tested, is_free, is_free_below, is_root};
use crate::expressions::Expr;
use crate::transfers::{Assign, Effects, Place};

/// The greatest depth of a tree in a well-formed transfer; a leaf has depth 1.
const GREATEST_DEPTH: u32 = 32;

/// Whether a tree is at most so deep; a leaf has depth 1. The recursion is never deeper than `limit`.
pub fn is_within(e: &Expr, limit: u32) -> bool
    ensures { result ≡ nat_le (depth (tree_of e.now)) limit }
{
    if limit == 0 {
        return false;
    }
    match e {
        Expr::Mem(_, a) | Expr::Un(_, a) => is_within(a, limit - 1),
        Expr::Bin(_, a, b) => is_within(a, limit - 1) && is_within(b, limit - 1),
        _ => true,
    }
}

fn has_depth(a: &Assign) -> bool
    ensures { result ≡ is_shallow a.now.to a.now.value }
{
    let place = match &a.to {
        Place::Cell(_) => true,
        Place::Mem(_, at) => is_within(at, GREATEST_DEPTH - 1),
    };
    place && is_within(&a.value, GREATEST_DEPTH)
}

// Whether such a construct stands nowhere in the assignment.
fn lacks(a: &Assign, construct: Construct) -> bool
    ensures { result ≡ free_of_both construct a.now.to a.now.value }
{
    match &a.to {
        Place::Cell(_) => is_free(&a.value, construct),
        Place::Mem(_, at) => is_free(at, construct) && is_free(&a.value, construct),
    }
}

fn has_pairs_for_flags(a: &Assign) -> bool
    ensures { result ≡ compares_for_flag a.now.to a.now.value }
{
    match &a.to {
        Place::Cell(Cell::Flag(_)) => {
            is_root(&a.value, Construct::Compared) && is_free_below(&a.value, Construct::Compared)
        }
        _ => lacks(a, Construct::Compared),
    }
}

fn has_tests_of_flags(a: &Assign) -> bool
    ensures { result ≡ tests_flags a.now.to a.now.value }
{
    match &a.to {
        Place::Cell(_) => are_flags_tested(&a.value),
        Place::Mem(_, at) => are_flags_tested(at) && are_flags_tested(&a.value),
    }
}

fn has_jumps_by_counter(a: &Assign) -> bool
    ensures { result ≡ jumps_by_counter a.now.to a.now.value }
{
    match &a.to {
        Place::Cell(Cell::Pc) => is_free_below(&a.value, Construct::Jump),
        _ => lacks(a, Construct::Jump),
    }
}

fn has_input_for_registers(a: &Assign) -> bool
    ensures { result ≡ takes_for_register a.now.to a.now.value }
{
    match &a.to {
        Place::Cell(Cell::Input) => false,
        Place::Cell(Cell::Hard(_) | Cell::Temp(_) | Cell::Hole(_)) => {
            is_free_below(&a.value, Construct::Taken)
        }
        _ => lacks(a, Construct::Taken),
    }
}

fn has_no_output_read(a: &Assign) -> bool
    ensures { result ≡ reads_no_output a.now.to a.now.value }
{
    lacks(a, Construct::Written)
}

/// Whether an assignment is a store.
pub fn is_to_memory(a: &Assign) -> bool
    ensures { result ≡ is_store a.now.to }
{
    matches!(a.to, Place::Mem(_, _))
}

/// Whether two assignments set one cell.
pub fn is_to_same_cell(a: &Assign, b: &Assign) -> bool
    ensures { result ≡ same_goal_cell a.now.to b.now.to }
{
    match (&a.to, &b.to) {
        (Place::Cell(c), Place::Cell(d)) => is_same(*c, *d),
        _ => false,
    }
}

fn is_apart(a: &Assign, b: &Assign) -> bool
    ensures { result ≡ set_apart a.now b.now }
{
    let both_take = is_root(&a.value, Construct::Taken) && is_root(&b.value, Construct::Taken);
    !is_to_same_cell(a, b) && !both_take
}

fn is_apart_from(a: &Assign, list: &[Assign]) -> bool
    ensures { IsTrue result ↔ All (λ n. set_apart a.now n ≡ true) list.now }
{
    list.iter().all(|b| is_apart(a, b))
}

// Whether no two assignments set one cell.
fn is_once(list: &[Assign]) -> bool
    ensures { IsTrue result ↔ AllPairs (λ m n. set_apart m n ≡ true) list.now }
{
    match list {
        [] => true,
        [first, rest @ ..] => is_apart_from(first, rest) && is_once(rest),
    }
}

fn has_one_store(list: &[Assign]) -> bool
    ensures { IsTrue result ↔ (count_by (λ m. is_store m.to) list.now ≤ 1) }
{
    list.iter().filter(|a| is_to_memory(a)).count() <= 1
}

/// Whether each part of one assignment stands where it may, and its trees are at most 32 deep.
pub fn is_placed(a: &Assign) -> bool
    ensures { IsTrue result ↔ IsPlaced a.now }
{
    has_depth(a)
        && has_pairs_for_flags(a)
        && has_tests_of_flags(a)
        && has_jumps_by_counter(a)
        && has_input_for_registers(a)
        && has_no_output_read(a)
}

fn are_placed(list: &[Assign]) -> bool
    ensures { IsTrue result ↔ All IsPlaced list.now }
{
    list.iter().all(|a| is_placed(a))
}

/// Whether a transfer is well formed: one to six assignments, no cell assigned twice (a read of the input counts as an assignment to
/// it), at most one store, trees of depth at most 32, and each construct only where it may stand.
pub fn well_formed(e: &Effects) -> bool
    ensures { IsTrue result ↔ IsWellFormed e.now }
{
    let list = e.list.as_slice();
    are_placed(list) && is_once(list) && has_one_store(list)
}

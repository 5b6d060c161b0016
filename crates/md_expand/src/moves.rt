//! The transfers of rows without modes.

ghost use Rattle.std.specs.Prelude.{◌≡◌, ◌≤◌, ℕ, List, map, option_map, option_and_then, slice_get, None, Some, IfOk, IfSome};
ghost use Rattle.rtl_tree.specs.Trees.{Tree, tree_of};
ghost use Rattle.rtl_tree.specs.Moves.{goal_of};
ghost use Rattle.rtl_spelling.specs.Spelling.{goal_of_leaf};
ghost use Rattle.md_text.specs.Expansion.{goal_with, move_with, all_there};
ghost use Rattle.md_expand.specs.Seen.{trees_of};
ghost use Rattle.md_expand.specs.Meant.{AllMeant, goal_register, said_register};
ghost use Rattle.md_expand.specs.Filled.{assign_of, BothFilled, BothAllFilled};

use crate::leaves::Meaning;
use crate::meanings::register_at;
use crate::trees::{leaf_at, with_leaves};
use md_forms::Said;
use rtl_tree::{Assign, Cell, Expr, NoMemory, Place, copy};
use std::alloc::Global;

/// An assignment without modes, and the number of the register's hole that it assigns, if it assigns one.
#[derive(Debug, Drop)]
pub struct Filled {
    pub assign: Assign,
    pub register: Option<usize>,
}

/// The place that a leaf can be.
fn place_of_leaf(leaf: Expr) -> Option<Place>
    ensures { option_map goal_of result ≡ goal_of_leaf (tree_of leaf) }
{
    match leaf {
        Expr::Cell(cell) => Some(Place::Cell(cell)),
        Expr::Mem(width, address) => Some(Place::Mem(width, Box::into_inner(address))),
        _ => None,
    }
}

fn place_with(alloc: Global, leaves: &[Meaning], place: &Place) -> Result<Option<Place>, NoMemory>
    ensures { IfOk result (λ to.
        option_map goal_of to ≡ goal_with (trees_of leaves.now) (goal_of place.now)) }
{
    match place {
        Place::Cell(Cell::Hole(number)) => Ok(place_of_leaf(leaf_at(alloc, leaves, *number)?)),
        Place::Cell(cell) => Ok(Some(Place::Cell(*cell))),
        Place::Mem(width, address) => {
            let address = with_leaves(alloc, leaves, address)?;
            Ok(Some(Place::Mem(*width, address)))
        }
    }
}

fn register_of_place(leaves: &[Meaning], place: &Place) -> Option<usize>
    ensures { result ≡ goal_register leaves.now (goal_of place.now) }
{
    match place {
        Place::Cell(Cell::Hole(number)) => register_at(leaves, *number),
        _ => None,
    }
}

fn filled_at(
    alloc: Global,
    leaves: &[Meaning],
    place: &Place,
    value: &Expr,
) -> Result<Option<Filled>, NoMemory>
    ensures moves { IfOk result (λ f. option_map assign_of f ≡ move_with (trees_of leaves.now)
        (record { to = Some (goal_of place.now); value = tree_of value.now })) }
    ensures registers { IfOk result (λ f.
        IfSome f (λ f. f.register ≡ goal_register leaves.now (goal_of place.now))) }
{
    match place_with(alloc, leaves, place)? {
        Some(to) => {
            let value = with_leaves(alloc, leaves, value)?;
            Ok(Some(Filled {
                assign: Assign { to, value },
                register: register_of_place(leaves, place),
            }))
        }
        None => Ok(None),
    }
}

/// An assignment with leaves in place of its holes, unless a leaf would stand as a place that is none.
fn filled_said(alloc: Global, leaves: &[Meaning], said: &Said) -> Result<Option<Filled>, NoMemory>
    ensures moves { IfOk result (λ f.
        option_map assign_of f ≡ move_with (trees_of leaves.now) said.now) }
    ensures registers { IfOk result (λ f.
        IfSome f (λ f. f.register ≡ said_register leaves.now said.now.to)) }
{
    match &said.to {
        Some(place) => filled_at(alloc, leaves, place, &said.value),
        None => Ok(None),
    }
}

/// An assignment that stands for the one that is meant, where leaves stand for those that are meant.
fn filled_by(alloc: Global, leaves: &[Meaning], said: &Said) -> Result<Option<Filled>, NoMemory>
    ensures { IfOk result (λ f. (n : ℕ) (ts : List Tree) → AllMeant (n ≤ 256) ts leaves.now
        → BothFilled (n ≤ 256) (move_with ts said.now) f) }
{
    filled_said(alloc, leaves, said)
}

/// Assignments with leaves in place of their holes, unless a leaf would stand as a place that is none.
pub fn filled_moves(
    alloc: Global,
    leaves: &[Meaning],
    moves: &[Said],
) -> Result<Option<Vec<Filled>>, NoMemory>
    ensures { IfOk result (λ fs. (n : ℕ) (ts : List Tree) → AllMeant (n ≤ 256) ts leaves.now
        → BothAllFilled (n ≤ 256) (all_there (map (move_with ts) moves.now)) (option_map (λ v. v.items) fs)) }
{
    let mut all = Vec::new(alloc);
    for said in moves {
        match filled_by(alloc, leaves, said)? {
            Some(filled) => all.push(filled)?,
            None => return Ok(None),
        }
    }
    Ok(Some(all))
}

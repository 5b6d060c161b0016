//! What fillings mean.

ghost use Rattle.std.specs.Prelude.{◌≡◌, ◌+◌, ◌≤◌, length, option_and_then, slice_get, None, IfOk};
ghost use Rattle.rtl_tree.specs.Trees.{tree_of, NoPair};
ghost use Rattle.md_text.specs.Pieces.{slots};
ghost use Rattle.md_text.specs.Expansion.{with_leaves, holes_in, leaves_by};
ghost use Rattle.md_forms.specs.Seen.{pieces_of};
ghost use Rattle.md_expand.specs.Seen.{trees_of};
ghost use Rattle.md_expand.specs.Scope.{filling_in, hole_total_in, slot_holes, row_holes};
ghost use Rattle.md_expand.specs.Meant.{tree_named, IsMeant, AllMeant, register_in};

use crate::fillings::hole_count;
use crate::leaves::{Meaning, leaf};
use crate::modes::Filling;
use crate::scope::Scope;
use crate::shown::taken_by;
use crate::trees::with_leaves;
use md_forms::{OpenTree, Piece};
use rtl_tree::{Cell, Expr, NoMemory};
use sqlite_items::Items;
use std::alloc::Global;

/// `lost`, which stands where no hole has a name.
fn no_meaning() -> Meaning
    ensures tree { tree_of result.tree ≡ NoPair }
    ensures register { result.register ≡ None }
{
    Meaning {
        tree: Expr::Lost,
        register: None,
    }
}

fn after(number: usize, count: usize) -> Result<usize, NoMemory>
    ensures { IfOk result (λ next. next ≡ number + count) }
{
    number.checked_add(count).ok_or(NoMemory)
}

/// The leaf of the first hole of this name in a text without modes, whose holes are numbered from `number` on.
fn slot_leaf(
    scope: &Scope<'_>,
    text: &[Piece],
    number: usize,
    name: &[u8],
) -> Result<Meaning, NoMemory>
    ensures { IfOk result (IsMeant (number + length (slots (pieces_of text.now)) ≤ 256)
        (tree_named (slot_holes scope.now number text.now) name.now)) }
{
    match text {
        [] => Ok(no_meaning()),
        [Piece::Hole(slot), rest @ ..] => {
            if slot.name.as_slice() == name {
                Ok(leaf(taken_by(scope, &slot.kind), number))
            } else {
                slot_leaf(scope, rest, after(number, 1)?, name)
            }
        }
        [_, rest @ ..] => slot_leaf(scope, rest, number, name),
    }
}

/// The leaves of the holes of these names in a text without modes.
fn slot_leaves(
    alloc: Global,
    scope: &Scope<'_>,
    text: &[Piece],
    number: usize,
    names: &[Items<u8>],
) -> Result<Vec<Meaning>, NoMemory>
    ensures { IfOk result (λ leaves. AllMeant (number + length (slots (pieces_of text.now)) ≤ 256)
        (leaves_by (slot_holes scope.now number text.now) names.now) leaves.items) }
{
    let mut leaves = Vec::new(alloc);
    for name in names {
        leaves.push(slot_leaf(scope, text, number, name.as_slice())?)?;
    }
    Ok(leaves)
}

pub fn register_at(leaves: &[Meaning], place: u8) -> Option<usize>
    ensures { result ≡ option_and_then (λ m. m.register) (slice_get leaves.now place) }
{
    match leaves.get(usize::from(place)) {
        Some(leaf) => leaf.register,
        None => None,
    }
}

/// The number of the register hole that a tree is with these leaves.
fn register_in(leaves: &[Meaning], tree: &Expr) -> Option<usize>
    ensures { result ≡ register_in leaves.now (tree_of tree.now) }
{
    match tree {
        Expr::Cell(Cell::Hole(place)) => register_at(leaves, *place),
        _ => None,
    }
}

/// A tree with leaves in place of its holes.
fn meaning_with(alloc: Global, leaves: &[Meaning], tree: &Expr) -> Result<Meaning, NoMemory>
    ensures tree { IfOk result (λ m. tree_of m.tree ≡ with_leaves (trees_of leaves.now) (tree_of tree.now)) }
    ensures register { IfOk result (λ m. m.register ≡ register_in leaves.now (tree_of tree.now)) }
{
    Ok(Meaning {
        register: register_in(leaves, tree),
        tree: with_leaves(alloc, leaves, tree)?,
    })
}

fn alternative_meaning(
    alloc: Global,
    scope: &Scope<'_>,
    text: &[Piece],
    number: usize,
    tree: &OpenTree,
) -> Result<Meaning, NoMemory>
    ensures { IfOk result (IsMeant (number + length (slots (pieces_of text.now)) ≤ 256)
        (with_leaves (leaves_by (slot_holes scope.now number text.now) tree.now.names) tree.now.tree)) }
{
    let leaves = slot_leaves(alloc, scope, text, number, tree.names.as_slice())?;
    meaning_with(alloc, &leaves, &tree.tree)
}

/// The tree that a filling means where so many holes stand before it.
fn meaning(
    alloc: Global,
    scope: &Scope<'_>,
    filling: &Filling<'_>,
    number: usize,
) -> Result<Meaning, NoMemory>
    ensures { IfOk result (IsMeant (number + length (holes_in (filling_in scope.now filling.now).text) ≤ 256)
        ((filling_in scope.now filling.now).tree number)) }
{
    match filling {
        Filling::Itself(hole) => Ok(leaf(*hole, number)),
        Filling::Alternative { text, tree } => alternative_meaning(
            alloc, scope, text, number, tree,
        ),
    }
}

/// The meaning of the first hole of this name in a row's text, whose holes are filled by these fillings and numbered from `number` on.
fn row_leaf(
    alloc: Global,
    scope: &Scope<'_>,
    text: &[Piece],
    chosen: &[Filling<'_>],
    number: usize,
    name: &[u8],
) -> Result<Meaning, NoMemory>
    ensures { IfOk result (IsMeant (number + hole_total_in scope.now chosen.now ≤ 256)
        (tree_named (row_holes scope.now number text.now chosen.now) name.now)) }
{
    match text {
        [] => Ok(no_meaning()),
        [Piece::Hole(slot), rest @ ..] => match chosen {
            [] => Ok(no_meaning()),
            [filling, others @ ..] => {
                if slot.name.as_slice() == name {
                    meaning(alloc, scope, filling, number)
                } else {
                    let next = after(number, hole_count(scope, filling))?;
                    row_leaf(alloc, scope, rest, others, next, name)
                }
            }
        },
        [_, rest @ ..] => row_leaf(alloc, scope, rest, chosen, number, name),
    }
}

/// The meanings of the holes of these names in a row's text.
pub fn row_leaves(
    alloc: Global,
    scope: &Scope<'_>,
    text: &[Piece],
    chosen: &[Filling<'_>],
    names: &[Items<u8>],
) -> Result<Vec<Meaning>, NoMemory>
    ensures { IfOk result (λ leaves. AllMeant (hole_total_in scope.now chosen.now ≤ 256)
        (leaves_by (row_holes scope.now 0 text.now chosen.now) names.now) leaves.items) }
{
    let mut leaves = Vec::new(alloc);
    for name in names {
        leaves.push(row_leaf(alloc, scope, text, chosen, 0, name.as_slice())?)?;
    }
    Ok(leaves)
}

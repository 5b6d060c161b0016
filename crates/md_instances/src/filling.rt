//! Rows with values in their holes.

ghost use Rattle.std.specs.Prelude.{◌≡◌, IfOk, map, slice_get};
ghost use Rattle.rtl_tree.specs.Trees.{tree_of};
ghost use Rattle.rtl_tree.specs.Moves.{goal_of};
ghost use Rattle.md_rows.specs.Instances.{effects_with, filled, filled_cell, filled_goal, filled_move, held_by, leaf_of, register_by};

use md_rows::{Binding, Bound, Row};
use rtl_tree::{Assign, Cell, Effects, Expr, NoMemory, Place, copy};
use smallvec::SmallVec;
use std::alloc::Global;

/// The leaf that a value stands for.
fn leaf_of(value: Bound) -> Expr
    ensures { tree_of result ≡ leaf_of value }
{
    match value {
        Bound::Reg(cell) => Expr::Cell(cell),
        Bound::Num(number) => Expr::Num(number),
        Bound::Sym(object) => Expr::Sym(object),
        Bound::Label(label) => Expr::Label(label),
    }
}

fn value_in(binding: &Binding, hole: u8) -> Option<Bound>
    ensures { result ≡ slice_get binding.now hole }
{
    binding.list.as_slice().get(usize::from(hole)).copied()
}

/// What stands in a hole; the hole itself where nothing does.
fn held_by(hole: Expr, value: Option<Bound>) -> Expr
    ensures { tree_of result ≡ held_by (tree_of hole) value }
{
    match value {
        Some(value) => leaf_of(value),
        None => hole,
    }
}

/// A copy of a row's tree with the values in its holes.
pub fn filled(alloc: Global, tree: &Expr, binding: &Binding) -> Result<Expr, NoMemory>
    ensures { IfOk result (λ made. tree_of made ≡ filled binding.now (tree_of tree.now)) }
{
    match tree {
        Expr::Cell(Cell::Hole(hole)) => {
            let place = Expr::Cell(Cell::Hole(*hole));
            Ok(held_by(place, value_in(binding, *hole)))
        }
        Expr::NumHole(hole) => Ok(held_by(Expr::NumHole(*hole), value_in(binding, *hole))),
        Expr::NameHole(hole) => Ok(held_by(Expr::NameHole(*hole), value_in(binding, *hole))),
        Expr::Mem(width, a) => {
            let a = filled(alloc, a, binding)?;
            Ok(Expr::Mem(*width, Box::new(alloc, a)?))
        }
        Expr::Un(operator, a) => {
            let a = filled(alloc, a, binding)?;
            Ok(Expr::Un(*operator, Box::new(alloc, a)?))
        }
        Expr::Bin(operator, a, b) => {
            let a = filled(alloc, a, binding)?;
            let b = filled(alloc, b, binding)?;
            let a = Box::new(alloc, a)?;
            Ok(Expr::Bin(*operator, a, Box::new(alloc, b)?))
        }
        _ => copy(alloc, tree),
    }
}

fn register_by(hole: Cell, value: Option<Bound>) -> Cell
    ensures { result ≡ register_by hole value }
{
    match value {
        Some(Bound::Reg(cell)) => cell,
        _ => hole,
    }
}

fn filled_cell(cell: Cell, binding: &Binding) -> Cell
    ensures { result ≡ filled_cell binding.now cell }
{
    match cell {
        Cell::Hole(hole) => register_by(cell, value_in(binding, hole)),
        _ => cell,
    }
}

fn filled_place(alloc: Global, place: &Place, binding: &Binding) -> Result<Place, NoMemory>
    ensures { IfOk result (λ made. goal_of made ≡ filled_goal binding.now (goal_of place.now)) }
{
    match place {
        Place::Cell(cell) => Ok(Place::Cell(filled_cell(*cell, binding))),
        Place::Mem(width, address) => {
            let address = filled(alloc, address, binding)?;
            Ok(Place::Mem(*width, address))
        }
    }
}

fn filled_assign(alloc: Global, assign: &Assign, binding: &Binding) -> Result<Assign, NoMemory>
    ensures { IfOk result (λ made. made ≡ filled_move binding.now assign.now) }
{
    Ok(Assign {
        to: filled_place(alloc, &assign.to, binding)?,
        value: filled(alloc, &assign.value, binding)?,
    })
}

fn filled_list(
    alloc: Global,
    list: &[Assign],
    binding: &Binding,
) -> Result<SmallVec<Assign, 3>, NoMemory>
    ensures { IfOk result (λ made. made.items ≡ map (filled_move binding.now) list.now) }
{
    let mut made = SmallVec::new(alloc);
    for assign in list {
        made.push(filled_assign(alloc, assign, binding)?)?;
    }
    Ok(made)
}

/// The transfer that a row makes with these values in its holes.
pub fn fill_row(alloc: Global, row: &Row, binding: &Binding) -> Result<Effects, NoMemory>
    ensures { IfOk result (λ made. made ≡ effects_with row.now binding.now) }
{
    let list = filled_list(alloc, row.effects.list.as_slice(), binding)?;
    Ok(Effects { list })
}

//! What a row's assignments without a mark must be.

ghost use Rattle.std.specs.Prelude.{◌≡◌, ◌≤◌, drop, length, take, slice_get, Some};
ghost use Rattle.rtl_tree.specs.Trees.{tree_of, Load};
ghost use Rattle.rtl_tree.specs.Moves.{goal_of};
ghost use Rattle.rtl_tree.specs.Same.{same_tree};
ghost use Rattle.md_rows.specs.Instances.{leaf_of};
ghost use Rattle.md_match.specs.Leaves.{leaf_kind, leaf_tree, same_leaves};
ghost use Rattle.md_match.specs.Searches.{all_apart, all_held, apart_from, assigned_by, binary_traps, fill, filled_with, goal_tree, harmless, in_marked, is_accepted as accepted, is_flag_of, is_idle as is_idle_by, names_none as none_named, occurs_by, occurs_in_move, others_pass, same_register, traps_pass, unary_traps};

use crate::fitting::has_bit;
use crate::slots::{Marks, Slots, is_same_binary, is_same_unary, is_same_width};
use md_rows::Bound;
use rtl_tree::{Assign, BinOp, Cell, Expr, Lab, Place, UnOp, Width, is_same};

/// Whether a tree names none of the hard registers `barred`, which have a bit each, by its number.
pub fn names_none(barred: u64, e: &Expr) -> bool
    ensures { result ≡ none_named barred (tree_of e.now) }
{
    match e {
        Expr::Cell(Cell::Hard(k)) => !has_bit(barred, *k),
        Expr::Mem(_, a) | Expr::Un(_, a) => names_none(barred, a),
        Expr::Bin(_, a, b) => names_none(barred, a) && names_none(barred, b),
        _ => true,
    }
}

fn is_to_flag(flags: u8, to: &Place) -> bool
    ensures { result ≡ is_flag_of flags (goal_of to.now) }
{
    match to {
        Place::Cell(Cell::Flag(k)) => has_bit(u64::from(flags), *k),
        _ => false,
    }
}

/// Whether an assignment is to one of `flags` and names none of the hard registers `barred` by its number; each has a bit.
pub fn is_idle(flags: u8, barred: u64, assign: &Assign) -> bool
    ensures { result ≡ is_idle_by flags barred assign.now }
{
    is_to_flag(flags, &assign.to) && names_none(barred, &assign.value)
}

// A leaf of a row, filled.
#[derive(Clone, Copy, Debug, PartialEq, Eq)]
enum Leaf {
    Number(u32),
    Symbol(u16),
    Label(Lab),
    Cell(Cell),
    Lost,
    NumberHole(u8),
    NameHole(u8),
}

fn value_leaf(bound: Bound) -> Leaf
    ensures { Some result ≡ leaf_kind (leaf_of bound) }
{
    match bound {
        Bound::Reg(c) => Leaf::Cell(c),
        Bound::Num(n) => Leaf::Number(n),
        Bound::Sym(n) => Leaf::Symbol(n),
        Bound::Label(l) => Leaf::Label(l),
    }
}

// What stands in a hole, or the hole.
fn held_leaf(slots: &Slots, place: u8, hole: Leaf) -> Leaf
    ensures { Some result ≡ leaf_kind (filled_with (leaf_tree hole) (slice_get slots.now place)) }
{
    match slots.get(usize::from(place)) {
        Some(Some(bound)) => value_leaf(*bound),
        _ => hole,
    }
}

// The leaf that a tree of a row is once it is filled, if it is one.
fn leaf_filled(slots: &Slots, e: &Expr) -> Option<Leaf>
    ensures { result ≡ leaf_kind (fill slots.now (tree_of e.now)) }
{
    match e {
        Expr::Num(n) => Some(Leaf::Number(*n)),
        Expr::Sym(n) => Some(Leaf::Symbol(*n)),
        Expr::Label(l) => Some(Leaf::Label(*l)),
        Expr::Cell(Cell::Hole(h)) => Some(held_leaf(slots, *h, Leaf::Cell(Cell::Hole(*h)))),
        Expr::Cell(c) => Some(Leaf::Cell(*c)),
        Expr::Lost => Some(Leaf::Lost),
        Expr::NumHole(h) => Some(held_leaf(slots, *h, Leaf::NumberHole(*h))),
        Expr::NameHole(h) => Some(held_leaf(slots, *h, Leaf::NameHole(*h))),
        Expr::Mem(_, _) | Expr::Un(_, _) | Expr::Bin(_, _, _) => None,
    }
}

fn is_same_leaf(k: Option<Leaf>, l: Option<Leaf>) -> bool
    ensures { result ≡ same_leaves k l }
{
    match (k, l) {
        (Some(k), Some(l)) => k == l,
        _ => false,
    }
}

// Whether two trees of a row are one once they are filled.
fn is_same_filled(slots: &Slots, a: &Expr, b: &Expr) -> bool
    ensures { result ≡ same_tree (fill slots.now (tree_of a.now)) (fill slots.now (tree_of b.now)) }
{
    match b {
        Expr::Mem(w, y) => match a {
            Expr::Mem(v, x) => is_same_width(*v, *w) && is_same_filled(slots, x, y),
            _ => false,
        },
        Expr::Un(p, y) => match a {
            Expr::Un(o, x) => is_same_unary(*o, *p) && is_same_filled(slots, x, y),
            _ => false,
        },
        Expr::Bin(p, y, u) => match a {
            Expr::Bin(o, x, z) => {
                is_same_binary(*o, *p) && is_same_filled(slots, x, y) && is_same_filled(slots, z, u)
            }
            _ => false,
        },
        _ => is_same_leaf(leaf_filled(slots, a), leaf_filled(slots, b)),
    }
}

/// Whether a tree of a row is, once both are filled, a subtree of another tree of the row.
pub fn occurs_filled(slots: &Slots, part: &Expr, whole: &Expr) -> bool
    ensures { result ≡ occurs_by (fill slots.now) (tree_of part.now) (tree_of whole.now) }
{
    if is_same_filled(slots, part, whole) {
        return true;
    }
    match whole {
        Expr::Mem(_, a) | Expr::Un(_, a) => occurs_filled(slots, part, a),
        Expr::Bin(_, a, b) => {
            if occurs_filled(slots, part, a) {
                return true;
            }
            occurs_filled(slots, part, b)
        }
        _ => false,
    }
}

fn is_same_load(slots: &Slots, part: &Expr, width: Width, at: &Expr) -> bool
    ensures { result ≡ same_tree (fill slots.now (tree_of part.now)) (fill slots.now (Load width (tree_of at.now))) }
{
    match part {
        Expr::Mem(w, a) => is_same_width(*w, width) && is_same_filled(slots, a, at),
        _ => false,
    }
}

fn occurs_in_place(slots: &Slots, part: &Expr, to: &Place) -> bool
    ensures { result ≡ occurs_by (fill slots.now) (tree_of part.now) (goal_tree (goal_of to.now)) }
{
    match to {
        Place::Cell(c) => occurs_filled(slots, part, &Expr::Cell(*c)),
        Place::Mem(width, at) => {
            if is_same_load(slots, part, *width, at) {
                return true;
            }
            occurs_filled(slots, part, at)
        }
    }
}

fn occurs_in_assign(slots: &Slots, part: &Expr, assign: &Assign) -> bool
    ensures { result ≡ occurs_in_move (fill slots.now) (tree_of part.now) assign.now }
{
    if occurs_in_place(slots, part, &assign.to) {
        return true;
    }
    occurs_filled(slots, part, &assign.value)
}

fn is_in_marked(row: &[Assign], used: &Marks, slots: &Slots, part: &Expr) -> bool
    requires { length row.now ≤ 6 }
    ensures { result ≡ in_marked (fill slots.now) row.now used.now (tree_of part.now) }
{
    for j in 0..row.len() {
        let assign = &row[j];
        if used[j] && occurs_in_assign(slots, part, assign) {
            return true;
        }
    }
    false
}

/// Whether an operator can trap.
pub fn can_unary_trap(operator: UnOp) -> bool
    ensures { result ≡ unary_traps operator }
{
    matches!(operator, UnOp::Test(_))
}

/// Whether an operator can trap.
pub fn can_binary_trap(operator: BinOp) -> bool
    ensures { result ≡ binary_traps operator }
{
    match operator {
        BinOp::Div | BinOp::Divu | BinOp::Rem | BinOp::Remu => true,
        BinOp::Shl | BinOp::Shr | BinOp::Shru => true,
        _ => false,
    }
}

// Whether each node of a tree that can trap occurs in a marked assignment.
fn are_traps_marked(row: &[Assign], used: &Marks, slots: &Slots, e: &Expr) -> bool
    requires { length row.now ≤ 6 }
    ensures { result ≡ traps_pass (in_marked (fill slots.now) row.now used.now) (tree_of e.now) }
{
    match e {
        Expr::Mem(_, a) => is_in_marked(row, used, slots, e)
            && are_traps_marked(row, used, slots, a),
        Expr::Un(o, a) => {
            if can_unary_trap(*o) && !is_in_marked(row, used, slots, e) {
                return false;
            }
            are_traps_marked(row, used, slots, a)
        }
        Expr::Bin(o, a, b) => {
            if can_binary_trap(*o) && !is_in_marked(row, used, slots, e) {
                return false;
            }
            are_traps_marked(row, used, slots, a) && are_traps_marked(row, used, slots, b)
        }
        _ => true,
    }
}

/// What the assignments without a mark are asked: to which flags they may go, and which hard registers they may not name.
#[derive(Clone, Copy)]
pub struct Demands {
    pub flags: u8,
    pub barred: u64,
}

fn is_harmless(
    demands: Demands,
    row: &[Assign],
    used: &Marks,
    slots: &Slots,
    assign: &Assign,
) -> bool
    requires { length row.now ≤ 6 }
    ensures { result ≡ harmless (is_idle_by demands.flags demands.barred) (in_marked (fill slots.now) row.now used.now) assign.now }
{
    is_idle(demands.flags, demands.barred, assign)
        && are_traps_marked(row, used, slots, &assign.value)
}

fn are_others_harmless(demands: Demands, row: &[Assign], used: &Marks, slots: &Slots) -> bool
    requires { length row.now ≤ 6 }
    ensures { result ≡ others_pass (harmless (is_idle_by demands.flags demands.barred) (in_marked (fill slots.now) row.now used.now)) row.now used.now }
{
    for j in 0..row.len() {
        let other = &row[j];
        if !used[j] && !is_harmless(demands, row, used, slots, other) {
            return false;
        }
    }
    true
}

fn are_held(count: usize, slots: &Slots) -> bool
    requires { count ≤ 8 }
    ensures { result ≡ all_held (take count slots.now) }
{
    for slot in &slots[..count] {
        if slot.is_none() {
            return false;
        }
    }
    true
}

// The register or temporary that is assigned, as far as the holes are known.
fn assigned(slots: &Slots, to: &Place) -> Option<Cell>
    ensures { result ≡ assigned_by slots.now (goal_of to.now) }
{
    match to {
        Place::Cell(Cell::Hard(k)) => Some(Cell::Hard(*k)),
        Place::Cell(Cell::Temp(n)) => Some(Cell::Temp(*n)),
        Place::Cell(Cell::Hole(h)) => match slots.get(usize::from(*h)) {
            Some(Some(Bound::Reg(Cell::Hard(k)))) => Some(Cell::Hard(*k)),
            Some(Some(Bound::Reg(Cell::Temp(n)))) => Some(Cell::Temp(*n)),
            _ => None,
        },
        _ => None,
    }
}

fn is_same_register(a: Option<Cell>, b: Option<Cell>) -> bool
    ensures { result ≡ same_register a b }
{
    match (a, b) {
        (Some(c), Some(d)) => is_same(c, d),
        _ => false,
    }
}

// Whether none of the assignments from a place on is to that register.
fn is_apart_from(slots: &Slots, register: Option<Cell>, row: &[Assign], from: usize) -> bool
    ensures { result ≡ apart_from slots.now register (drop from row.now) }
{
    for j in from..row.len() {
        let other = &row[j];
        if is_same_register(register, assigned(slots, &other.to)) {
            return false;
        }
    }
    true
}

// Whether no two assignments are to one register.
fn are_apart(slots: &Slots, row: &[Assign]) -> bool
    requires { length row.now ≤ 6 }
    ensures { result ≡ all_apart slots.now row.now }
{
    for i in 0..row.len() {
        let first = &row[i];
        if !is_apart_from(slots, assigned(slots, &first.to), row, i + 1) {
            return false;
        }
    }
    true
}

/// Whether the first `count` holes are all bound, the assignments without a mark are harmless (to the flags and without the registers
/// that `demands` says, and trapping only where a marked one does), and no two assigned registers become one.
pub fn is_accepted(
    demands: Demands,
    count: usize,
    row: &[Assign],
    used: &Marks,
    slots: &Slots,
) -> bool
    requires holes { count ≤ 8 }
    requires row { length row.now ≤ 6 }
    ensures { result ≡ accepted count (is_idle_by demands.flags demands.barred) row.now used.now slots.now }
{
    are_held(count, slots)
        && are_others_harmless(demands, row, used, slots)
        && are_apart(slots, row)
}

//! What stands in the holes of a row, as far as it is known.

ghost use Rattle.std.specs.Prelude.{◌≡◌};
ghost use Rattle.rtl_word.specs.Words.{IsWordSize};
ghost use Rattle.rtl_tree.specs.Trees.{tree_of};
ghost use Rattle.rtl_tree.specs.Same.{same_width, same_unary, same_binary};
ghost use Rattle.md_match.specs.Slots.{bound_of, fit_of, put as put_in_slots, same_bound};
ghost use Rattle.md_match.specs.Find.{leaf as leaf_against};

use crate::fitting::fits_at;
use md_rows::{Bound, Hole};
use rtl_tree::{BinOp, Cell, Expr, UnOp, Width, is_same, is_same_label};

/// What stands in each of the eight holes that a row may have, as far as it is known.
pub type Slots = [Option<Bound>; 8];

/// A mark for each of the six assignments that a row may have.
pub type Marks = [bool; 6];

/// No hole is known.
pub const NO_SLOTS: Slots = [None, None, None, None, None, None, None, None];

/// No assignment is marked.
pub const NO_MARKS: Marks = [false, false, false, false, false, false];

/// Whether two values are one.
pub fn is_same_bound(v: Bound, u: Bound) -> bool
    ensures { result ≡ same_bound v u }
{
    v == u
}

/// Whether two widths are one.
pub fn is_same_width(v: Width, w: Width) -> bool
    ensures { result ≡ same_width v w }
{
    v == w
}

/// Whether two operators are one.
pub fn is_same_unary(o: UnOp, p: UnOp) -> bool
    ensures { result ≡ same_unary o p }
{
    o == p
}

/// Whether two operators are one.
pub fn is_same_binary(o: BinOp, p: BinOp) -> bool
    ensures { result ≡ same_binary o p }
{
    o == p
}

fn value_of(e: &Expr) -> Option<Bound>
    ensures { result ≡ bound_of (tree_of e.now) }
{
    match e {
        Expr::Num(n) => Some(Bound::Num(*n)),
        Expr::Sym(n) => Some(Bound::Sym(*n)),
        Expr::Label(l) => Some(Bound::Label(*l)),
        Expr::Cell(Cell::Hard(k)) => Some(Bound::Reg(Cell::Hard(*k))),
        Expr::Cell(Cell::Temp(k)) => Some(Bound::Reg(Cell::Temp(*k))),
        _ => None,
    }
}

/// The slots once a value stands in a hole. None where there is no such hole, where another value stands in it already, or where the
/// value doesn't fit.
#[tactic(auto, unfolding(crate::specs::Slots::put))]
pub fn put(
    bits: u32,
    general: u64,
    holes: &[Hole],
    place: u8,
    bound: Option<Bound>,
    slots: Slots,
) -> Option<Slots>
    requires size { IsWordSize bits }
    ensures { result ≡ put_in_slots (fit_of bits general holes.now) place bound slots }
{
    let Some(bound) = bound else {
        return None;
    };
    match slots.get(usize::from(place)) {
        None => None,
        Some(Some(held)) => {
            if is_same_bound(*held, bound) {
                Some(slots)
            } else {
                None
            }
        }
        Some(None) => {
            if !fits_at(bits, general, holes, place, bound) {
                return None;
            }
            let mut slots = slots;
            slots[usize::from(place)] = Some(bound);
            Some(slots)
        }
    }
}

// A leaf of the row against a tree: a hole takes the tree's value, and another leaf is to be the tree.
#[tactic(auto, unfolding(crate::specs::Find::leaf))]
pub(crate) fn compare(
    bits: u32,
    general: u64,
    holes: &[Hole],
    row: &Expr,
    e: &Expr,
    slots: Slots,
) -> Option<Slots>
    requires size { IsWordSize bits }
    ensures { result ≡ leaf_against (fit_of bits general holes.now) (tree_of row.now) (tree_of e.now) slots }
{
    match (row, e) {
        (Expr::Cell(Cell::Hole(h)), _) => put(bits, general, holes, *h, value_of(e), slots),
        (Expr::NumHole(h), _) => put(bits, general, holes, *h, value_of(e), slots),
        (Expr::NameHole(h), _) => put(bits, general, holes, *h, value_of(e), slots),
        (Expr::Num(n), Expr::Num(m)) => if n == m { Some(slots) } else { None },
        (Expr::Sym(n), Expr::Sym(m)) => if n == m { Some(slots) } else { None },
        (Expr::Label(l), Expr::Label(m)) => if is_same_label(*l, *m) {
            Some(slots)
        } else {
            None
        },
        (Expr::Cell(c), Expr::Cell(d)) => if is_same(*c, *d) { Some(slots) } else { None },
        (Expr::Lost, Expr::Lost) => Some(slots),
        _ => None,
    }
}

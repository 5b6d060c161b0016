//! Trees that stand on the stack: those of the shapes, which take no memory.

ghost use Rattle.std.specs.Prelude.{◌≡◌};
ghost use Rattle.rtl_word.specs.Words.{IsWordSize};
ghost use Rattle.rtl_tree.specs.Trees.{tree_of};
ghost use Rattle.md_match.specs.Slots.{bound_of, fit_of};
ghost use Rattle.md_match.specs.Find.{leaf};
ghost use Rattle.md_shapes.specs.Drawings.{drawn_tree};

use md_match::{Slots, put};
use md_rows::{Bound, Hole};
use rtl_tree::{BinOp, Cell, Expr, Lab, UnOp, Width, is_same, is_same_label};

/// A tree.
#[derive(Clone, Copy)]
pub(crate) enum Drawn<'a> {
    Number(u32),
    Symbol(u16),
    Label(Lab),
    Cell(Cell),
    Mem(Width, &'a Drawn<'a>),
    Un(UnOp, &'a Drawn<'a>),
    Bin(BinOp, &'a Drawn<'a>, &'a Drawn<'a>),
}

/// Where an assignment goes.
#[derive(Clone, Copy)]
pub(crate) enum DrawnPlace<'a> {
    Cell(Cell),
    Mem(Width, &'a Drawn<'a>),
}

/// An assignment.
#[derive(Clone, Copy)]
pub(crate) struct DrawnMove<'a> {
    pub to: DrawnPlace<'a>,
    pub value: Drawn<'a>,
}

fn value_of(e: &Drawn) -> Option<Bound>
    ensures { result ≡ bound_of (drawn_tree e.now) }
{
    match e {
        Drawn::Number(n) => Some(Bound::Num(*n)),
        Drawn::Symbol(n) => Some(Bound::Sym(*n)),
        Drawn::Label(l) => Some(Bound::Label(*l)),
        Drawn::Cell(Cell::Hard(k)) => Some(Bound::Reg(Cell::Hard(*k))),
        Drawn::Cell(Cell::Temp(k)) => Some(Bound::Reg(Cell::Temp(*k))),
        _ => None,
    }
}

/// A leaf of a row against a tree: a hole takes the tree's value, and another leaf is to be the tree.
#[tactic(auto, unfolding(md_match::specs::Find::leaf))]
pub(crate) fn compare(
    bits: u32,
    general: u64,
    holes: &[Hole],
    row: &Expr,
    e: &Drawn,
    slots: Slots,
) -> Option<Slots>
    requires size { IsWordSize bits }
    ensures { result ≡ leaf (fit_of bits general holes.now) (tree_of row.now) (drawn_tree e.now) slots }
{
    match (row, e) {
        (Expr::Cell(Cell::Hole(h)), _) => put(bits, general, holes, *h, value_of(e), slots),
        (Expr::NumHole(h), _) => put(bits, general, holes, *h, value_of(e), slots),
        (Expr::NameHole(h), _) => put(bits, general, holes, *h, value_of(e), slots),
        (Expr::Num(n), Drawn::Number(m)) => if n == m { Some(slots) } else { None },
        (Expr::Sym(n), Drawn::Symbol(m)) => if n == m { Some(slots) } else { None },
        (Expr::Label(l), Drawn::Label(m)) => if is_same_label(*l, *m) {
            Some(slots)
        } else {
            None
        },
        (Expr::Cell(c), Drawn::Cell(d)) => if is_same(*c, *d) { Some(slots) } else { None },
        _ => None,
    }
}

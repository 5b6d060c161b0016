//! The leaves that stand for the holes of a row without modes.

ghost use Rattle.std.specs.Prelude.{◌≡◌, ◌<◌};
ghost use Rattle.rtl_tree.specs.Trees.{tree_of};
ghost use Rattle.md_text.specs.Expansion.{leaf_of};
ghost use Rattle.md_expand.specs.Like.{IsLike, hole_in};

use md_rows::Hole;
use rtl_tree::{Cell, Expr};

/// What a hole means: a tree, and the number of the register's hole that the tree is, if it is one. A tree takes numbers below 256 for
/// its holes. Where more holes stand in a row, which is too large then, the number beside it still tells one register from another.
#[derive(Debug, Drop)]
pub struct Meaning {
    pub tree: Expr,
    pub register: Option<usize>,
}

// A greater number becomes 255.
fn narrowed(number: usize) -> u8
    ensures { number < 256 → result ≡ number }
{
    if number < 256 { number as u8 } else { 255 }
}

/// The leaf that stands for the hole of this number.
pub fn leaf(hole: Hole, number: usize) -> Meaning
    ensures like { IsLike (leaf_of hole number) (tree_of result.tree) }
    ensures same { number < 256 → tree_of result.tree ≡ leaf_of hole number }
    ensures register { result.register ≡ hole_in (leaf_of hole number) }
{
    match hole {
        Hole::Reg(_) => Meaning {
            tree: Expr::Cell(Cell::Hole(narrowed(number))),
            register: Some(number),
        },
        Hole::Num { .. } => Meaning {
            tree: Expr::NumHole(narrowed(number)),
            register: None,
        },
        Hole::Sym | Hole::Label => Meaning {
            tree: Expr::NameHole(narrowed(number)),
            register: None,
        },
    }
}

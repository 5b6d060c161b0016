//! Instances: rows with their holes filled.

use rtl_tree::{Cell, Lab};
use smallvec::SmallVec;
use std::marker::Model;

/// What stands in a hole.
#[derive(Clone, Copy, Debug, PartialEq, Eq)]
pub enum Bound {
    Reg(Cell),
    Num(u32),
    /// An object, by its place among the names.
    Sym(u16),
    Label(Lab),
}

/// The number 0, which fills the inline places of a list that are not in use.
impl Default for Bound {
    fn default() -> Bound {
        Bound::Num(0)
    }
}

/// What stands in each hole of a row, at most eight of them. Contracts see the list.
#[derive(Debug, Drop)]
pub struct Binding {
    pub list: SmallVec<Bound, 8>,
}

impl Model for Binding {
    ghost use Rattle.std.specs.Prelude.{List, length, ◌≤◌};
    ghost use Rattle.md_rows.specs.declared.instance.Bound.{Bound};

    ghost Value = { List Bound };

    ghost view = { λ b. b.list.items };

    ghost invariant = { λ b. length b.list.items ≤ 8 };
}

/// One instruction of a description: a row, by its place among the rows, and what stands in its holes.
#[derive(Debug, Drop)]
pub struct Instance {
    pub row: u16,
    pub binding: Binding,
}

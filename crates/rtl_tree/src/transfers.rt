//! Transfers: assignments that are made at once.

use crate::cells::Cell;
use crate::expressions::{Expr, Width};
use smallvec::SmallVec;
use std::marker::Model;

/// Where an assignment goes.
#[derive(Debug, Drop)]
pub enum Place {
    Cell(Cell),
    /// Memory, at an address.
    Mem(Width, Expr),
}

/// One assignment, which contracts see as a move: a goal and a tree.
#[derive(Debug, Drop)]
pub struct Assign {
    pub to: Place,
    pub value: Expr,
}

impl Model for Assign {
    ghost use Rattle.rtl_tree.specs.Moves.{Move, goal_of};
    ghost use Rattle.rtl_tree.specs.Codes.{move_code};
    ghost use Rattle.rtl_tree.specs.Trees.{tree_of};

    ghost Value = { Move };

    ghost coded = { move_code };

    ghost view = { λ a. record { to = goal_of a.to; value = tree_of a.value } };
}

/// The number 0 to register 0, which fills the inline places of a list that are not in use.
impl Default for Assign {
    ghost use Rattle.std.specs.Prelude.{◌≡◌};
    ghost use Rattle.rtl_tree.specs.declared.cells.Cell.TheVariants.{Hard};
    ghost use Rattle.rtl_tree.specs.Trees.{Number};
    ghost use Rattle.rtl_tree.specs.Moves.{ToCell};

    fn default() -> Assign
        ensures { result ≡ record { to = ToCell (Hard 0); value = Number 0 } }
    {
        Assign {
            to: Place::Cell(Cell::Hard(0)),
            value: Expr::Num(0),
        }
    }
}

/// A transfer: one to six assignments. All right sides and addresses are read before anything is assigned. Contracts see it as the
/// list of its moves.
#[derive(Debug, Drop)]
pub struct Effects {
    pub list: SmallVec<Assign, 3>,
}

impl Model for Effects {
    ghost use Rattle.std.specs.Prelude.{List, length, ◌<◌, ◌≤◌};
    ghost use Rattle.std.specs.Coded.{coded_list};
    ghost use Rattle.rtl_tree.specs.Moves.{Move};
    ghost use Rattle.rtl_tree.specs.Codes.{move_code};

    ghost Value = { List Move };

    ghost coded = { coded_list move_code };

    ghost view = { λ e. e.list.items };

    ghost invariant = { λ e. (0 < length e.list.items) × (length e.list.items ≤ 6) };
}

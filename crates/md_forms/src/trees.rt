//! Trees and transfers with holes. A hole stands as a register hole, whose number is the place of the hole's name.

use rtl_tree::{Expr, Place};
use sqlite_items::Items;
use std::marker::Model;

/// A tree with holes, which contracts see as an open tree.
#[derive(Debug, Drop)]
pub struct OpenTree {
    /// The names of the holes, as often as they stand in the tree.
    pub names: Items<Items<u8>>,
    pub tree: Expr,
}

impl Model for OpenTree {
    ghost use Rattle.rtl_tree.specs.Trees.{tree_of};
    ghost use Rattle.md_text.specs.Forms.{OpenTree};
    ghost use Rattle.md_forms.specs.Codes.{open_tree_code};

    ghost Value = { OpenTree };

    ghost coded = { open_tree_code };

    ghost view = { λ t. record { names = t.names; tree = tree_of t.tree } };
}

/// An assignment with holes. It has no place where a leaf would stand as one that is none.
#[derive(Debug, Drop)]
pub struct Said {
    pub to: Option<Place>,
    pub value: Expr,
}

impl Model for Said {
    ghost use Rattle.std.specs.Prelude.{option_map};
    ghost use Rattle.rtl_tree.specs.Trees.{tree_of};
    ghost use Rattle.rtl_tree.specs.Moves.{goal_of};
    ghost use Rattle.rtl_spelling.specs.Spelling.{Said};
    ghost use Rattle.md_forms.specs.Codes.{said_code};

    ghost Value = { Said };

    ghost coded = { said_code };

    ghost view = { λ s. record { to = option_map goal_of s.to; value = tree_of s.value } };
}

/// A transfer with holes, which contracts see as an open transfer.
#[derive(Debug, Drop)]
pub struct OpenTransfer {
    /// The names of the holes, as often as they stand in the transfer.
    pub names: Items<Items<u8>>,
    pub moves: Items<Said>,
}

impl Model for OpenTransfer {
    ghost use Rattle.md_text.specs.Forms.{OpenTransfer};
    ghost use Rattle.md_forms.specs.Codes.{open_transfer_code};

    ghost Value = { OpenTransfer };

    ghost coded = { open_transfer_code };

    ghost view = { λ t. record { names = t.names; moves = t.moves } };
}

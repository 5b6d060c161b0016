//! The holes that a reader fills.

use rtl_tree::Expr;
use std::marker::Model;

/// A hole of a text, written as its name between `<` and `>`, and the leaf that it becomes. Contracts see the leaf as a tree.
#[derive(Debug, Drop)]
pub struct OpenHole {
    pub name: Vec<u8>,
    pub leaf: Expr,
}

impl Model for OpenHole {
    ghost use Rattle.rtl_tree.specs.Trees.{tree_of};
    ghost use Rattle.rtl_spelling.specs.Holes.{Open, open_code};

    ghost Value = { Open };

    ghost coded = { open_code };

    ghost view = { λ h. record { name = h.name.items; leaf = tree_of h.leaf } };
}

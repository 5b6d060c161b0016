//! What an assignment says.

use rtl_tree::{Expr, Place};

/// What the text of an assignment says. It has no place where a hole's leaf stands as one and can't be one.
#[derive(Debug, Drop)]
pub struct Assignment {
    pub to: Option<Place>,
    pub value: Expr,
}

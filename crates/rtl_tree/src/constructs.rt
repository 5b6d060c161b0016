//! What may stand at few places of a transfer alone.

ghost use Rattle.std.specs.Prelude.{◌≡◌};
ghost use Rattle.rtl_tree.specs.Trees.{tree_of};
ghost use Rattle.rtl_tree.specs.WellFormed.{flags_tested, free_below, free_of, is_construct, is_flag};

use crate::cells::Cell;
use crate::expressions::{BinOp, Expr, UnOp};

/// A construct that may stand at few places of a transfer alone.
#[derive(Clone, Copy, Debug, PartialEq, Eq)]
pub enum Construct {
    /// What a flag becomes: a pair, or `lost`.
    Compared,
    /// A jump's condition with its target.
    Jump,
    /// A byte of the input.
    Taken,
    /// The output or the status, which are only written.
    Written,
}

/// Whether the root of a tree is such a construct.
pub fn is_root(e: &Expr, construct: Construct) -> bool
    ensures { result ≡ is_construct construct (tree_of e.now) }
{
    match construct {
        Construct::Compared => matches!(e, Expr::Bin(BinOp::Pair, _, _) | Expr::Lost),
        Construct::Jump => matches!(e, Expr::Bin(BinOp::When, _, _)),
        Construct::Taken => matches!(e, Expr::Cell(Cell::Input)),
        Construct::Written => matches!(e, Expr::Cell(Cell::Output | Cell::Halt)),
    }
}

/// Whether such a construct stands nowhere in a tree.
pub fn is_free(e: &Expr, construct: Construct) -> bool
    ensures { result ≡ free_of construct (tree_of e.now) }
{
    match e {
        Expr::Mem(_, a) | Expr::Un(_, a) => is_free(a, construct),
        Expr::Bin(_, a, b) => {
            !is_root(e, construct) && is_free(a, construct) && is_free(b, construct)
        }
        _ => !is_root(e, construct),
    }
}

/// Whether such a construct stands nowhere in a tree but perhaps at its root.
pub fn is_free_below(e: &Expr, construct: Construct) -> bool
    ensures { result ≡ free_below construct (tree_of e.now) }
{
    match e {
        Expr::Mem(_, a) | Expr::Un(_, a) => is_free(a, construct),
        Expr::Bin(_, a, b) => is_free(a, construct) && is_free(b, construct),
        _ => true,
    }
}

fn is_flag_read(e: &Expr) -> bool
    ensures { result ≡ is_flag (tree_of e.now) }
{
    matches!(e, Expr::Cell(Cell::Flag(_)))
}

/// Whether flags are read only under tests, which stand only over flags.
pub fn are_flags_tested(e: &Expr) -> bool
    ensures { result ≡ flags_tested (tree_of e.now) }
{
    match e {
        Expr::Un(UnOp::Test(_), a) => is_flag_read(a),
        Expr::Mem(_, a) | Expr::Un(_, a) => are_flags_tested(a),
        Expr::Bin(_, a, b) => are_flags_tested(a) && are_flags_tested(b),
        _ => !is_flag_read(e),
    }
}

//! Parts of a tree put in place of the whole.

ghost use Rattle.std.specs.Prelude.{◌≡◌};
ghost use Rattle.rtl_tree.specs.Trees.{tree_of};
ghost use Rattle.rtl_norm.specs.Rules.{left_of};
ghost use Rattle.rtl_simplify.specs.Shapes.{IsBinary, IsUnary, IsTestOfPair, right_of, operand_of, compared};

use rtl_tree::{BinOp, Expr, take};
use rtl_word::Rel;

/// The left operand, in place of the whole.
pub fn keep_left(e: &mut Expr)
    requires { IsBinary (tree_of e.old) }
    ensures { tree_of e.new ≡ left_of (tree_of e.old) }
{
    match take(e) {
        Expr::Bin(_, a, _) => *e = Box::into_inner(a),
        _ => unreachable!(),
    }
}

/// The right operand, in place of the whole.
pub fn keep_right(e: &mut Expr)
    requires { IsBinary (tree_of e.old) }
    ensures { tree_of e.new ≡ right_of (tree_of e.old) }
{
    match take(e) {
        Expr::Bin(_, _, b) => *e = Box::into_inner(b),
        _ => unreachable!(),
    }
}

/// The operand, in place of the whole.
pub fn keep_operand(e: &mut Expr)
    requires { IsUnary (tree_of e.old) }
    ensures { tree_of e.new ≡ operand_of (tree_of e.old) }
{
    match take(e) {
        Expr::Un(_, a) => *e = Box::into_inner(a),
        _ => unreachable!(),
    }
}

/// The relation of a pair, in place of its test.
pub fn keep_relation(e: &mut Expr, relation: Rel)
    requires { IsTestOfPair (tree_of e.old) }
    ensures { tree_of e.new ≡ compared relation (tree_of e.old) }
{
    match take(e) {
        Expr::Un(_, pair) => match Box::into_inner(pair) {
            Expr::Bin(_, a, b) => *e = Expr::Bin(BinOp::Cmp(relation), a, b),
            _ => unreachable!(),
        },
        _ => unreachable!(),
    }
}

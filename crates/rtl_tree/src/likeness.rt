//! Equality of trees up to the order of operands.

ghost use Rattle.std.specs.Prelude.{IsTrue, ◌↔◌, ◌≡◌};
ghost use Rattle.rtl_tree.specs.Trees.{tree_of};
ghost use Rattle.rtl_tree.specs.Likeness.{commutes, IsAlike};

use crate::expressions::{BinOp, Expr};
use rtl_word::Rel;

/// Whether the operands of an operator may be swapped: those of `+ * & | ^ eq ne`.
pub fn is_commutative(operator: BinOp) -> bool
    ensures { result ≡ commutes operator }
{
    match operator {
        BinOp::Add | BinOp::Mul | BinOp::And | BinOp::Or | BinOp::Xor => true,
        BinOp::Cmp(Rel::Eq) | BinOp::Cmp(Rel::Ne) => true,
        _ => false,
    }
}

/// Whether two trees are equal up to swapping the operands of `+ * & | ^ eq ne`. The time is at most the product of the two sizes.
pub fn alike(a: &Expr, b: &Expr) -> bool
    ensures { IsTrue result ↔ IsAlike (tree_of a.now) (tree_of b.now) }
{
    match (a, b) {
        (Expr::Num(m), Expr::Num(n)) => m == n,
        (Expr::Sym(m), Expr::Sym(n)) => m == n,
        (Expr::Label(l), Expr::Label(m)) => l == m,
        (Expr::Cell(c), Expr::Cell(d)) => c == d,
        (Expr::Lost, Expr::Lost) => true,
        (Expr::NumHole(m), Expr::NumHole(n)) => m == n,
        (Expr::NameHole(m), Expr::NameHole(n)) => m == n,
        (Expr::Mem(v, x), Expr::Mem(w, y)) => v == w && alike(x, y),
        (Expr::Un(o, x), Expr::Un(p, y)) => o == p && alike(x, y),
        (Expr::Bin(o, x, z), Expr::Bin(p, y, u)) => {
            if o != p {
                return false;
            }
            if alike(x, y) && alike(z, u) {
                return true;
            }
            is_commutative(*o) && alike(x, u) && alike(z, y)
        }
        _ => false,
    }
}

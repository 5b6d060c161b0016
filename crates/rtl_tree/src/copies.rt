//! To take, copy and compare trees.

ghost use Rattle.std.specs.Prelude.{IfOk, IsTrue, ◌↔◌, ◌≡◌};
ghost use Rattle.rtl_tree.specs.Trees.{tree_of};

use crate::expressions::Expr;
use crate::memory::NoMemory;
use std::alloc::Global;
use std::mem;

/// Takes the tree out of its place, in which the number 0 is left.
pub fn take(e: &mut Expr) -> Expr
    ensures taken { result ≡ e.old }
    ensures left { e.new ≡ Expr.Num 0 }
{
    mem::replace(e, Expr::Num(0))
}

/// A copy of a tree.
pub fn copy(alloc: Global, e: &Expr) -> Result<Expr, NoMemory>
    ensures { IfOk result (λ c. tree_of c ≡ tree_of e.now) }
{
    match e {
        Expr::Num(n) => Ok(Expr::Num(*n)),
        Expr::Sym(n) => Ok(Expr::Sym(*n)),
        Expr::Label(l) => Ok(Expr::Label(*l)),
        Expr::Cell(c) => Ok(Expr::Cell(*c)),
        Expr::Mem(width, a) => {
            let a = copy(alloc, a)?;
            Ok(Expr::Mem(*width, Box::new(alloc, a)?))
        }
        Expr::Un(operator, a) => {
            let a = copy(alloc, a)?;
            Ok(Expr::Un(*operator, Box::new(alloc, a)?))
        }
        Expr::Bin(operator, a, b) => {
            let a = copy(alloc, a)?;
            let b = copy(alloc, b)?;
            let a = Box::new(alloc, a)?;
            Ok(Expr::Bin(*operator, a, Box::new(alloc, b)?))
        }
        Expr::Lost => Ok(Expr::Lost),
        Expr::NumHole(n) => Ok(Expr::NumHole(*n)),
        Expr::NameHole(n) => Ok(Expr::NameHole(*n)),
    }
}

/// Whether two trees are equal.
pub fn same(a: &Expr, b: &Expr) -> bool
    ensures { IsTrue result ↔ (tree_of a.now ≡ tree_of b.now) }
{
    match (a, b) {
        (Expr::Num(m), Expr::Num(n)) => m == n,
        (Expr::Sym(m), Expr::Sym(n)) => m == n,
        (Expr::Label(l), Expr::Label(m)) => l == m,
        (Expr::Cell(c), Expr::Cell(d)) => c == d,
        (Expr::Mem(v, a), Expr::Mem(w, b)) => v == w && same(a, b),
        (Expr::Un(o, a), Expr::Un(p, b)) => o == p && same(a, b),
        (Expr::Bin(o, a, b), Expr::Bin(p, c, d)) => o == p && same(a, c) && same(b, d),
        (Expr::Lost, Expr::Lost) => true,
        (Expr::NumHole(m), Expr::NumHole(n)) => m == n,
        (Expr::NameHole(m), Expr::NameHole(n)) => m == n,
        _ => false,
    }
}

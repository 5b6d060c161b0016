//! To put a tree for each occurrence of a cell.

ghost use Rattle.std.specs.Prelude.{IfOk, if◌then◌else◌, is_ok, ◌≡◌};
ghost use Rattle.rtl_tree.specs.Trees.{tree_of};
ghost use Rattle.rtl_tree.specs.Substitution.{put_for};

use crate::cells::{Cell, is_same};
use crate::copies::copy;
use crate::expressions::Expr;
use crate::memory::NoMemory;
use std::alloc::Global;

// The tree with a copy of `by` for each `c`.
fn substituted(alloc: Global, e: &Expr, c: Cell, by: &Expr) -> Result<Expr, NoMemory>
    ensures { IfOk result (λ r. tree_of r ≡ put_for c (tree_of by.now) (tree_of e.now)) }
{
    match e {
        Expr::Num(n) => Ok(Expr::Num(*n)),
        Expr::Sym(n) => Ok(Expr::Sym(*n)),
        Expr::Label(l) => Ok(Expr::Label(*l)),
        Expr::Cell(d) => {
            if is_same(*d, c) {
                copy(alloc, by)
            } else {
                Ok(Expr::Cell(*d))
            }
        }
        Expr::Mem(width, a) => {
            let a = substituted(alloc, a, c, by)?;
            Ok(Expr::Mem(*width, Box::new(alloc, a)?))
        }
        Expr::Un(operator, a) => {
            let a = substituted(alloc, a, c, by)?;
            Ok(Expr::Un(*operator, Box::new(alloc, a)?))
        }
        Expr::Bin(operator, a, b) => {
            let a = substituted(alloc, a, c, by)?;
            let b = substituted(alloc, b, c, by)?;
            let a = Box::new(alloc, a)?;
            Ok(Expr::Bin(*operator, a, Box::new(alloc, b)?))
        }
        Expr::Lost => Ok(Expr::Lost),
        Expr::NumHole(n) => Ok(Expr::NumHole(*n)),
        Expr::NameHole(n) => Ok(Expr::NameHole(*n)),
    }
}

/// Puts a copy of `by` for each `c`. Where there is no memory the tree stays as it was.
pub fn substitute(alloc: Global, e: &mut Expr, c: Cell, by: &Expr) -> Result<(), NoMemory>
    ensures { tree_of e.new
        ≡ (if is_ok result then put_for c (tree_of by.now) (tree_of e.old) else tree_of e.old) }
{
    let made = substituted(alloc, e, c, by)?;
    *e = made;
    Ok(())
}

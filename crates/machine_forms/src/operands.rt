//! Operands of trees: each is none where the tree isn't flat.

ghost use Rattle.std.specs.Prelude.{IfSome, ◌≡◌};
ghost use Rattle.rtl_tree.specs.Trees.{Binary, Number, tree_of};
ghost use Rattle.rtl_tree.specs.declared.expressions.BinOp.TheVariants.{Add};
ghost use Rattle.machine_forms.specs.Forms.{address_tree, source_tree, value_tree};

use crate::forms::{Address, Source, Value};
use rtl_tree::{BinOp, Cell, Expr};

/// The number that a tree is.
pub fn number(e: &Expr) -> Option<u32>
    ensures { IfSome result (λ k. Number k ≡ tree_of e.now) }
{
    match e {
        Expr::Num(k) => Some(*k),
        _ => None,
    }
}

fn sum(a: &Expr, b: &Expr) -> Option<Address>
    ensures { IfSome result (λ f. address_tree f ≡ Binary Add (tree_of a.now) (tree_of b.now)) }
{
    match (a, b) {
        (Expr::Cell(Cell::Hard(n)), Expr::Num(k)) => Some(Address::Beyond(*n, *k)),
        _ => None,
    }
}

/// The address that a tree is.
pub fn address(e: &Expr) -> Option<Address>
    ensures { IfSome result (λ a. address_tree a ≡ tree_of e.now) }
{
    match e {
        Expr::Cell(Cell::Hard(n)) => Some(Address::In(*n)),
        Expr::Num(k) => Some(Address::Fixed(*k)),
        Expr::Bin(BinOp::Add, a, b) => sum(a, b),
        _ => None,
    }
}

/// The source that a tree is.
pub fn source(e: &Expr) -> Option<Source>
    ensures { IfSome result (λ a. source_tree a ≡ tree_of e.now) }
{
    match e {
        Expr::Cell(Cell::Hard(n)) => Some(Source::Register(*n)),
        Expr::Num(k) => Some(Source::Number(*k)),
        Expr::Mem(width, a) => Some(Source::Memory(*width, address(a)?)),
        _ => None,
    }
}

/// The value that a tree is.
pub fn value(e: &Expr) -> Option<Value>
    ensures { IfSome result (λ v. value_tree v ≡ tree_of e.now) }
{
    match e {
        Expr::Un(operator, a) => Some(Value::Unary(*operator, source(a)?)),
        Expr::Bin(operator, a, b) => {
            let a = source(a)?;
            Some(Value::Binary(*operator, a, source(b)?))
        }
        _ => Some(Value::Plain(source(e)?)),
    }
}

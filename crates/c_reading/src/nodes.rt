//! Nodes of trees. A tree is boxed once, where it is built, and handed on in its box.

ghost use Rattle.std.specs.Prelude.{◌≡◌, ◌++◌, ◌∷◌, [], IfOk, OnOk};
ghost use Rattle.c_tree.specs.declared.syntax.Expr.TheVariants as tree;
ghost use Rattle.c_tree.specs.Places.{place_of};

use c_tree::At;
use c_tree::syntax::{AssignOperator, BinaryOperator, Expr, StepOperator};
use sqlite_items::{Boxed, Items};
use std::alloc::{AllocError, Global};

pub fn comma(
    alloc: Global,
    left: Boxed<Expr>,
    right: Boxed<Expr>,
) -> Result<Boxed<Expr>, AllocError>
    ensures { IfOk result (λ e. e ≡ tree.Comma (place_of left) left right) }
{
    let at = left.get().place();
    Boxed::new(alloc, Expr::Comma(at, left, right))
}

pub fn assign(
    alloc: Global,
    left: Boxed<Expr>,
    operator: AssignOperator,
    right: Boxed<Expr>,
) -> Result<Boxed<Expr>, AllocError>
    ensures { IfOk result (λ e. e ≡ tree.Assign (place_of left) left operator right) }
{
    let at = left.get().place();
    Boxed::new(alloc, Expr::Assign(at, left, operator, right))
}

pub fn binary(
    alloc: Global,
    left: Boxed<Expr>,
    operator: BinaryOperator,
    right: Boxed<Expr>,
) -> Result<Boxed<Expr>, AllocError>
    ensures { IfOk result (λ e. e ≡ tree.Binary (place_of left) left operator right) }
{
    let at = left.get().place();
    Boxed::new(alloc, Expr::Binary(at, left, operator, right))
}

pub fn conditional(
    alloc: Global,
    test: Boxed<Expr>,
    then: Boxed<Expr>,
    other: Boxed<Expr>,
) -> Result<Boxed<Expr>, AllocError>
    ensures { IfOk result (λ e. e ≡ tree.Conditional (place_of test) test then other) }
{
    let at = test.get().place();
    Boxed::new(alloc, Expr::Conditional(at, test, then, other))
}

pub fn after(
    alloc: Global,
    e: Boxed<Expr>,
    operator: StepOperator,
) -> Result<Boxed<Expr>, AllocError>
    ensures { IfOk result (λ x. x ≡ tree.After (place_of e) e operator) }
{
    let at = e.get().place();
    Boxed::new(alloc, Expr::After(at, e, operator))
}

pub fn number(
    alloc: Global,
    at: At,
    value: u64,
    decimal: bool,
    unsigned: bool,
) -> Result<Boxed<Expr>, AllocError>
    ensures { IfOk result (λ e. e ≡ tree.Number at value decimal unsigned) }
{
    Boxed::new(
        alloc,
        Expr::Number {
            at,
            value,
            decimal,
            unsigned,
        },
    )
}

/// Adds a tree to a list.
pub fn push<T: Drop>(list: &mut Items<T>, item: Boxed<T>) -> Result<(), AllocError>
    ensures { OnOk result (list.new ≡ list.old ++ item ∷ []) }
{
    list.push(item.into_inner())
}

/// What is in a box, if there is one.
pub fn unboxed<T>(item: Option<Boxed<T>>) -> Option<T>
    ensures { result ≡ item }
{
    match item {
        None => None,
        Some(item) => Some(item.into_inner()),
    }
}

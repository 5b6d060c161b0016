//! The operators of expressions.

ghost use Rattle.std.specs.Prelude.{◌≡◌, not};
ghost use Rattle.c_typing.specs.Faults.{notes};
ghost use Rattle.c_lacks.specs.Operators.{has_in};
ghost use Rattle.c_lacks.specs.Lacks.{expression_lacks, lacking, list_lacks, seen_of};

use crate::operators::{has_operation, has_operator};
use c_conversions::Told;
use c_tree::{At, CType, TypedExpr};
use md_check::OpSet;

/// An operator that the description lacks.
const LACKING: u8 = 51;

fn tell(told: &mut Told, there: bool, at: At)
    ensures { told.new.first ≡ notes told.old.first (lacking there at) }
{
    told.tell_if(!there, LACKING, at);
}

#[cycle(expressions)]
pub(crate) fn list(told: &mut Told, set: OpSet, es: &[TypedExpr])
    ensures { told.new.first ≡ notes told.old.first (list_lacks (has_in set.covered) es.now) }
{
    for e in es {
        expression(told, set, e);
    }
}

/// What is told of an expression, whose type is given.
#[cycle(expressions)]
pub(crate) fn expression(told: &mut Told, set: OpSet, e: &TypedExpr) -> CType
    ensures of { result ≡ (seen_of (has_in set.covered) e.now).of }
    ensures told { told.new.first ≡ notes told.old.first (expression_lacks (has_in set.covered) e.now) }
{
    match e {
        TypedExpr::Constant(h, _) => h.of,
        TypedExpr::Object(h, _) => h.of,
        TypedExpr::Element(h, _, i) => {
            expression(told, set, i.get());
            h.of
        }
        TypedExpr::Assign(h, a, b) => {
            expression(told, set, a.get());
            expression(told, set, b.get());
            h.of
        }
        TypedExpr::Compound(h, a, o, b) => {
            let left = expression(told, set, a.get());
            let right = expression(told, set, b.get());
            tell(told, has_operation(set, *o, left, right), h.at);
            h.of
        }
        TypedExpr::Before(h, _, a) => {
            expression(told, set, a.get());
            h.of
        }
        TypedExpr::After(h, a, _) => {
            expression(told, set, a.get());
            h.of
        }
        TypedExpr::Binary(h, a, o, b) => {
            let left = expression(told, set, a.get());
            expression(told, set, b.get());
            tell(told, has_operator(set, *o, left), h.at);
            h.of
        }
        TypedExpr::Unary(h, _, a) => {
            expression(told, set, a.get());
            h.of
        }
        TypedExpr::Convert(h, a) => {
            expression(told, set, a.get());
            h.of
        }
        TypedExpr::Comma(h, a, b) => {
            expression(told, set, a.get());
            expression(told, set, b.get());
            h.of
        }
        TypedExpr::Conditional(h, a, b, c) => {
            expression(told, set, a.get());
            expression(told, set, b.get());
            expression(told, set, c.get());
            h.of
        }
        TypedExpr::Call(h, _, es) => {
            list(told, set, es.as_slice());
            h.of
        }
    }
}

//! The values of constant expressions (C11 6.6).

ghost use Rattle.std.specs.Prelude.{◌≡◌, ◌<◌, ◌^◌, Some, None, false, IfSome};
ghost use Rattle.c_constants.specs.Constants as spec;

use crate::operators::{as_type, on_one, on_two};
use c_tree::syntax::{BinaryOperator, UnaryOperator};
use c_tree::typed::Head;
use c_tree::{CType, TypedExpr};
use rtl_word::Word;

/// Of an expression as a constant: whether it has the form of one, its value where that is defined, and its type.
#[derive(Clone, Copy, PartialEq, Eq, Debug)]
pub struct Fixed {
    pub is_fixed: bool,
    pub value: Option<u32>,
    pub of: CType,
}

fn word<W: Word>(v: u32) -> Option<u32>
    ensures is { result ≡ spec.word W.BITS v }
    ensures fits { IfSome result (λ x. x < 2 ^ W.BITS) }
{
    if u64::from(v) < 1 << W::BITS {
        Some(v)
    } else {
        None
    }
}

fn of_two<W: Word>(of: CType, o: BinaryOperator, x: Option<u32>, y: Option<u32>) -> Option<u32>
    requires x_fits { IfSome x (λ v. v < 2 ^ W.BITS) }
    requires y_fits { IfSome y (λ v. v < 2 ^ W.BITS) }
    ensures is { result ≡ spec.of_two W.BITS of o x y }
    ensures fits { IfSome result (λ v. v < 2 ^ W.BITS) }
{
    let Some(x) = x else {
        return None;
    };
    let Some(y) = y else {
        return None;
    };
    on_two::<W>(of, o, x, y)
}

fn of_one<W: Word>(of: CType, o: UnaryOperator, x: Option<u32>) -> Option<u32>
    requires { IfSome x (λ v. v < 2 ^ W.BITS) }
    ensures is { result ≡ spec.of_one W.BITS of o x }
    ensures fits { IfSome result (λ v. v < 2 ^ W.BITS) }
{
    match x {
        None => None,
        Some(x) => on_one::<W>(of, o, x),
    }
}

fn truth<W: Word>(x: Option<u32>) -> Option<u32>
    ensures is { result ≡ spec.truth x }
    ensures fits { IfSome result (λ v. v < 2 ^ W.BITS) }
{
    match x {
        None => None,
        Some(0) => Some(0),
        Some(_) => Some(1),
    }
}

fn conjunction<W: Word>(x: Option<u32>, y: Option<u32>) -> Option<u32>
    ensures is { result ≡ spec.conjunction x y }
    ensures fits { IfSome result (λ v. v < 2 ^ W.BITS) }
{
    match x {
        None => None,
        Some(0) => Some(0),
        Some(_) => truth::<W>(y),
    }
}

fn disjunction<W: Word>(x: Option<u32>, y: Option<u32>) -> Option<u32>
    ensures is { result ≡ spec.disjunction x y }
    ensures fits { IfSome result (λ v. v < 2 ^ W.BITS) }
{
    match x {
        None => None,
        Some(0) => truth::<W>(y),
        Some(_) => Some(1),
    }
}

fn chosen<W: Word>(x: Option<u32>, y: Option<u32>, z: Option<u32>) -> Option<u32>
    requires y_fits { IfSome y (λ v. v < 2 ^ W.BITS) }
    requires z_fits { IfSome z (λ v. v < 2 ^ W.BITS) }
    ensures is { result ≡ spec.chosen x y z }
    ensures fits { IfSome result (λ v. v < 2 ^ W.BITS) }
{
    match x {
        None => None,
        Some(0) => z,
        Some(_) => y,
    }
}

fn is_and(o: BinaryOperator) -> bool
    ensures { result ≡ spec.is_and o }
{
    matches!(o, BinaryOperator::LogicalAnd)
}

fn is_or(o: BinaryOperator) -> bool
    ensures { result ≡ spec.is_or o }
{
    matches!(o, BinaryOperator::LogicalOr)
}

fn of_binary<W: Word>(of: CType, o: BinaryOperator, x: Option<u32>, y: Option<u32>) -> Option<u32>
    requires x_fits { IfSome x (λ v. v < 2 ^ W.BITS) }
    requires y_fits { IfSome y (λ v. v < 2 ^ W.BITS) }
    ensures is { result ≡ spec.of_binary W.BITS of o x y }
    ensures fits { IfSome result (λ v. v < 2 ^ W.BITS) }
{
    if is_and(o) {
        return conjunction::<W>(x, y);
    }
    if is_or(o) {
        return disjunction::<W>(x, y);
    }
    of_two::<W>(of, o, x, y)
}

fn converted<W: Word>(of: CType, x: Option<u32>) -> Option<u32>
    requires { IfSome x (λ v. v < 2 ^ W.BITS) }
    ensures is { result ≡ spec.converted W.BITS of x }
    ensures fits { IfSome result (λ v. v < 2 ^ W.BITS) }
{
    match x {
        None => None,
        Some(v) => Some(as_type::<W>(of, v)),
    }
}

fn not_fixed(h: Head) -> Fixed
    ensures { result ≡ spec.fixed false None h.of }
{
    Fixed {
        is_fixed: false,
        value: None,
        of: h.of,
    }
}

/// What is known of an expression as a constant.
fn known<W: Word>(e: &TypedExpr) -> Fixed
    ensures is { result ≡ spec.known W.BITS e.now }
    ensures fits { IfSome result.value (λ v. v < 2 ^ W.BITS) }
{
    match e {
        TypedExpr::Constant(h, v) => Fixed {
            is_fixed: true,
            value: word::<W>(*v),
            of: h.of,
        },
        TypedExpr::Binary(h, a, o, b) => {
            let a = known::<W>(a.get());
            let b = known::<W>(b.get());
            Fixed {
                is_fixed: a.is_fixed && b.is_fixed,
                value: of_binary::<W>(a.of, *o, a.value, b.value),
                of: h.of,
            }
        }
        TypedExpr::Unary(h, o, a) => {
            let a = known::<W>(a.get());
            Fixed {
                is_fixed: a.is_fixed,
                value: of_one::<W>(a.of, *o, a.value),
                of: h.of,
            }
        }
        TypedExpr::Conditional(h, a, b, c) => {
            let a = known::<W>(a.get());
            let b = known::<W>(b.get());
            let c = known::<W>(c.get());
            Fixed {
                is_fixed: a.is_fixed && (b.is_fixed && c.is_fixed),
                value: chosen::<W>(a.value, b.value, c.value),
                of: h.of,
            }
        }
        TypedExpr::Convert(h, a) => {
            let a = known::<W>(a.get());
            Fixed {
                is_fixed: a.is_fixed,
                value: converted::<W>(h.of, a.value),
                of: h.of,
            }
        }
        TypedExpr::Comma(h, ..) => not_fixed(*h),
        TypedExpr::Assign(h, ..) => not_fixed(*h),
        TypedExpr::Compound(h, ..) => not_fixed(*h),
        TypedExpr::Before(h, ..) => not_fixed(*h),
        TypedExpr::After(h, ..) => not_fixed(*h),
        TypedExpr::Object(h, _) => not_fixed(*h),
        TypedExpr::Element(h, ..) => not_fixed(*h),
        TypedExpr::Call(h, ..) => not_fixed(*h),
    }
}

/// The defined value of a constant expression.
pub fn constant_value<W: Word>(e: &TypedExpr) -> Option<u32>
    ensures is { result ≡ spec.constant_value W.BITS e.now }
    ensures fits { IfSome result (λ v. v < 2 ^ W.BITS) }
{
    let known = known::<W>(e);
    if known.is_fixed { known.value } else { None }
}

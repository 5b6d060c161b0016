//! The operators of C on words, where they are defined (C11 6.5).

ghost use Rattle.std.specs.Prelude.{◌≡◌, ◌<◌, ◌*◌, ◌^◌, IfSome};
ghost use Rattle.c_constants.specs.Operators as spec;

use c_tree::CType;
use c_tree::syntax::{BinaryOperator, UnaryOperator};
use rtl_word::Word;

fn biased<W: Word>(x: u32) -> u64
    requires { x < 2 ^ W.BITS }
    ensures is { result ≡ spec.biased W.BITS x }
    ensures fits { result < 2 ^ W.BITS }
{
    (u64::from(x) + (1 << (W::BITS - 1))) % (1 << W::BITS)
}

fn sum_fits<W: Word>(x: u32, y: u32) -> bool
    requires x_fits { x < 2 ^ W.BITS }
    requires y_fits { y < 2 ^ W.BITS }
    ensures { result ≡ spec.sum_fits W.BITS x y }
{
    let half = 1 << (W::BITS - 1);
    let sum = biased::<W>(x) + biased::<W>(y);
    half <= sum && sum < (1 << W::BITS) + half
}

fn difference_fits<W: Word>(x: u32, y: u32) -> bool
    requires x_fits { x < 2 ^ W.BITS }
    requires y_fits { y < 2 ^ W.BITS }
    ensures { result ≡ spec.difference_fits W.BITS x y }
{
    let half = 1 << (W::BITS - 1);
    let a = biased::<W>(x);
    let b = biased::<W>(y);
    b <= a + half && a < b + half
}

fn is_negative<W: Word>(x: u32) -> bool
    ensures { result ≡ spec.is_negative W.BITS x }
{
    1 << (W::BITS - 1) <= u64::from(x)
}

fn magnitude<W: Word>(x: u32) -> u64
    requires { x < 2 ^ W.BITS }
    ensures is { result ≡ spec.magnitude W.BITS x }
    ensures fits { result < 2 ^ 32 }
{
    if is_negative::<W>(x) {
        (1 << W::BITS) - u64::from(x)
    } else {
        u64::from(x)
    }
}

fn same_sign(a: bool, b: bool) -> bool
    ensures { result ≡ spec.same_sign a b }
{
    if a { b } else { !b }
}

fn product(x: u64, y: u64) -> u64
    requires x_fits { x < 2 ^ 32 }
    requires y_fits { y < 2 ^ 32 }
    ensures { result ≡ x * y }
{
    x * y
}

fn product_fits<W: Word>(x: u32, y: u32) -> bool
    requires x_fits { x < 2 ^ W.BITS }
    requires y_fits { y < 2 ^ W.BITS }
    ensures { result ≡ spec.product_fits W.BITS x y }
{
    let size = product(magnitude::<W>(x), magnitude::<W>(y));
    let half = 1 << (W::BITS - 1);
    if same_sign(is_negative::<W>(x), is_negative::<W>(y)) {
        size < half
    } else {
        size <= half
    }
}

fn shift_fits<W: Word>(x: u32, y: u32) -> bool
    ensures { result ≡ spec.shift_fits W.BITS x y }
{
    y < W::BITS && u64::from(x) < 1 << (W::BITS - 1 - y)
}

fn on_signed<W: Word>(o: BinaryOperator, x: u32, y: u32) -> Option<u32>
    requires x_fits { x < 2 ^ W.BITS }
    requires y_fits { y < 2 ^ W.BITS }
    ensures is { result ≡ spec.on_signed W.BITS o x y }
    ensures fits { IfSome result (λ v. v < 2 ^ W.BITS) }
{
    match o {
        BinaryOperator::Add => {
            if sum_fits::<W>(x, y) {
                Some(W::add(x, y))
            } else {
                None
            }
        }
        BinaryOperator::Subtract => {
            if difference_fits::<W>(x, y) {
                Some(W::sub(x, y))
            } else {
                None
            }
        }
        BinaryOperator::Multiply => {
            if product_fits::<W>(x, y) {
                Some(W::mul(x, y))
            } else {
                None
            }
        }
        BinaryOperator::Divide => W::div(x, y),
        BinaryOperator::Remainder => W::rem(x, y),
        BinaryOperator::And => Some(W::and(x, y)),
        BinaryOperator::Or => Some(W::or(x, y)),
        BinaryOperator::Xor => Some(W::xor(x, y)),
        BinaryOperator::ShiftLeft => {
            if shift_fits::<W>(x, y) {
                W::shl(x, y)
            } else {
                None
            }
        }
        BinaryOperator::ShiftRight => W::shr(x, y),
        BinaryOperator::Equal => Some(u32::from(x == y)),
        BinaryOperator::NotEqual => Some(u32::from(x != y)),
        BinaryOperator::Less => Some(u32::from(biased::<W>(x) < biased::<W>(y))),
        BinaryOperator::Greater => Some(u32::from(biased::<W>(y) < biased::<W>(x))),
        BinaryOperator::LessEqual => Some(u32::from(biased::<W>(x) <= biased::<W>(y))),
        BinaryOperator::GreaterEqual => Some(u32::from(biased::<W>(y) <= biased::<W>(x))),
        BinaryOperator::LogicalOr => None,
        BinaryOperator::LogicalAnd => None,
    }
}

fn on_unsigned<W: Word>(o: BinaryOperator, x: u32, y: u32) -> Option<u32>
    requires x_fits { x < 2 ^ W.BITS }
    requires y_fits { y < 2 ^ W.BITS }
    ensures is { result ≡ spec.on_unsigned W.BITS o x y }
    ensures fits { IfSome result (λ v. v < 2 ^ W.BITS) }
{
    match o {
        BinaryOperator::Add => Some(W::add(x, y)),
        BinaryOperator::Subtract => Some(W::sub(x, y)),
        BinaryOperator::Multiply => Some(W::mul(x, y)),
        BinaryOperator::Divide => W::divu(x, y),
        BinaryOperator::Remainder => W::remu(x, y),
        BinaryOperator::And => Some(W::and(x, y)),
        BinaryOperator::Or => Some(W::or(x, y)),
        BinaryOperator::Xor => Some(W::xor(x, y)),
        BinaryOperator::ShiftLeft => W::shl(x, y),
        BinaryOperator::ShiftRight => W::shru(x, y),
        BinaryOperator::Equal => Some(u32::from(x == y)),
        BinaryOperator::NotEqual => Some(u32::from(x != y)),
        BinaryOperator::Less => Some(u32::from(x < y)),
        BinaryOperator::Greater => Some(u32::from(y < x)),
        BinaryOperator::LessEqual => Some(u32::from(x <= y)),
        BinaryOperator::GreaterEqual => Some(u32::from(y <= x)),
        BinaryOperator::LogicalOr => None,
        BinaryOperator::LogicalAnd => None,
    }
}

/// Of two operands of a type; the count of a shift may have the other.
pub fn on_two<W: Word>(of: CType, o: BinaryOperator, x: u32, y: u32) -> Option<u32>
    requires x_fits { x < 2 ^ W.BITS }
    requires y_fits { y < 2 ^ W.BITS }
    ensures is { result ≡ spec.on_two W.BITS of o x y }
    ensures fits { IfSome result (λ v. v < 2 ^ W.BITS) }
{
    match of {
        CType::Unsigned => on_unsigned::<W>(o, x, y),
        _ => on_signed::<W>(o, x, y),
    }
}

fn negated<W: Word>(of: CType, x: u32) -> Option<u32>
    requires { x < 2 ^ W.BITS }
    ensures is { result ≡ spec.negated W.BITS of x }
    ensures fits { IfSome result (λ v. v < 2 ^ W.BITS) }
{
    match of {
        CType::Unsigned => Some(W::neg(x)),
        _ => {
            if u64::from(x) == 1 << (W::BITS - 1) {
                None
            } else {
                Some(W::neg(x))
            }
        }
    }
}

pub fn on_one<W: Word>(of: CType, o: UnaryOperator, x: u32) -> Option<u32>
    requires { x < 2 ^ W.BITS }
    ensures is { result ≡ spec.on_one W.BITS of o x }
    ensures fits { IfSome result (λ v. v < 2 ^ W.BITS) }
{
    match o {
        UnaryOperator::Plus => Some(x),
        UnaryOperator::Minus => negated::<W>(of, x),
        UnaryOperator::Complement => Some(W::not(x)),
        UnaryOperator::Not => Some(u32::from(x == 0)),
    }
}

/// A word as one of a type (C11 6.3.1.3).
pub fn as_type<W: Word>(of: CType, x: u32) -> u32
    requires { x < 2 ^ W.BITS }
    ensures is { result ≡ spec.as_type W.BITS of x }
    ensures fits { result < 2 ^ W.BITS }
{
    match of {
        CType::Schar => W::sxb(x),
        CType::Uchar => x % 256,
        _ => x,
    }
}

//! Operators on numbers alone.

ghost use Rattle.std.specs.Prelude.{◌≡◌, ℕ, ◌<◌, ◌^◌};
ghost use Rattle.rtl_norm.specs.Numbers.{unary_number, binary_number};
ghost use Rattle.rtl_norm.specs.Rules.{joined};

use rtl_tree::{BinOp, UnOp};
use rtl_word::Word;

/// What an operator makes of a number.
pub fn unary<W: Word>(operator: UnOp, a: u32) -> Option<u32>
    requires { a < 2 ^ W.BITS }
    ensures { result ≡ unary_number W.BITS operator a }
{
    match operator {
        UnOp::Neg => Some(W::neg(a)),
        UnOp::Not => Some(W::not(a)),
        UnOp::Sxb => Some(W::sxb(a)),
        UnOp::Test(_) => None,
    }
}

/// What an operator makes of two numbers; nothing where it traps, and of a pair or a condition.
pub fn binary<W: Word>(operator: BinOp, a: u32, b: u32) -> Option<u32>
    requires a_fits { a < 2 ^ W.BITS }
    requires b_fits { b < 2 ^ W.BITS }
    ensures { result ≡ binary_number W.BITS operator a b }
{
    match operator {
        BinOp::Add => Some(W::add(a, b)),
        BinOp::Sub => Some(W::sub(a, b)),
        BinOp::Mul => Some(W::mul(a, b)),
        BinOp::Div => W::div(a, b),
        BinOp::Divu => W::divu(a, b),
        BinOp::Rem => W::rem(a, b),
        BinOp::Remu => W::remu(a, b),
        BinOp::And => Some(W::and(a, b)),
        BinOp::Or => Some(W::or(a, b)),
        BinOp::Xor => Some(W::xor(a, b)),
        BinOp::Shl => W::shl(a, b),
        BinOp::Shr => W::shr(a, b),
        BinOp::Shru => W::shru(a, b),
        BinOp::Cmp(relation) => Some(W::rel(relation, a, b)),
        BinOp::Pair | BinOp::When => None,
    }
}

/// The one number in place of two that follow one another under one of `+ & |`.
pub fn join<W: Word>(outer: BinOp, inner: BinOp, c: u32, d: u32) -> Option<u32>
    requires c_fits { c < 2 ^ W.BITS }
    requires d_fits { d < 2 ^ W.BITS }
    ensures { result ≡ joined W.BITS outer inner c d }
{
    match (outer, inner) {
        (BinOp::Add, BinOp::Add) => Some(W::add(c, d)),
        (BinOp::And, BinOp::And) => Some(W::and(c, d)),
        (BinOp::Or, BinOp::Or) => Some(W::or(c, d)),
        _ => None,
    }
}

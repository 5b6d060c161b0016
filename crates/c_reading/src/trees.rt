//! What is asked of a tree while it is read, and what signs stand for.

ghost use Rattle.std.specs.Prelude.{◌≡◌, ◌≤◌};
ghost use Rattle.c_grammar.specs.Operators.{precedence};
ghost use Rattle.c_reading.specs.Trees as spec;

use c_grammar::Sign;
use c_tree::syntax::{Arithmetic, AssignOperator, BinaryOperator, Expr, TypeWords};

/// Whether it is a unary expression (C11 6.5.3), which may stand on the left of an assignment.
#[tactic(auto, unfolding(crate::specs::Trees::is_unary))]
pub fn is_unary(e: &Expr) -> bool
    ensures { result ≡ spec.is_unary e.now }
{
    !matches!(
        e,
        Expr::Comma(..)
            | Expr::Assign(..)
            | Expr::Conditional(..)
            | Expr::Binary(..)
            | Expr::Cast(..)
    )
}

pub fn precedence(operator: BinaryOperator) -> u32
    ensures value { result ≡ precedence operator }
    ensures few { result ≤ 12 }
{
    match operator {
        BinaryOperator::LogicalOr => 3,
        BinaryOperator::LogicalAnd => 4,
        BinaryOperator::Or => 5,
        BinaryOperator::Xor => 6,
        BinaryOperator::And => 7,
        BinaryOperator::Equal | BinaryOperator::NotEqual => 8,
        BinaryOperator::Less
        | BinaryOperator::Greater
        | BinaryOperator::LessEqual
        | BinaryOperator::GreaterEqual => 9,
        BinaryOperator::ShiftLeft | BinaryOperator::ShiftRight => 10,
        BinaryOperator::Add | BinaryOperator::Subtract => 11,
        BinaryOperator::Multiply | BinaryOperator::Divide | BinaryOperator::Remainder => 12,
    }
}

#[tactic(auto, unfolding(crate::specs::Trees::binary_of))]
pub fn binary_operator(sign: Sign) -> Option<BinaryOperator>
    ensures { result ≡ spec.binary_of sign }
{
    match sign {
        Sign::LogicalOr => Some(BinaryOperator::LogicalOr),
        Sign::LogicalAnd => Some(BinaryOperator::LogicalAnd),
        Sign::Bar => Some(BinaryOperator::Or),
        Sign::Caret => Some(BinaryOperator::Xor),
        Sign::Ampersand => Some(BinaryOperator::And),
        Sign::Equal => Some(BinaryOperator::Equal),
        Sign::NotEqual => Some(BinaryOperator::NotEqual),
        Sign::Less => Some(BinaryOperator::Less),
        Sign::Greater => Some(BinaryOperator::Greater),
        Sign::LessEqual => Some(BinaryOperator::LessEqual),
        Sign::GreaterEqual => Some(BinaryOperator::GreaterEqual),
        Sign::ShiftLeft => Some(BinaryOperator::ShiftLeft),
        Sign::ShiftRight => Some(BinaryOperator::ShiftRight),
        Sign::Plus => Some(BinaryOperator::Add),
        Sign::Minus => Some(BinaryOperator::Subtract),
        Sign::Star => Some(BinaryOperator::Multiply),
        Sign::Slash => Some(BinaryOperator::Divide),
        Sign::Percent => Some(BinaryOperator::Remainder),
        _ => None,
    }
}

#[tactic(auto, unfolding(crate::specs::Trees::assign_of))]
pub fn assign_operator(sign: Sign) -> Option<AssignOperator>
    ensures { result ≡ spec.assign_of sign }
{
    match sign {
        Sign::Assign => Some(AssignOperator::Plain),
        Sign::AssignAdd => Some(AssignOperator::Compound(Arithmetic::Add)),
        Sign::AssignSubtract => Some(AssignOperator::Compound(Arithmetic::Subtract)),
        Sign::AssignMultiply => Some(AssignOperator::Compound(Arithmetic::Multiply)),
        Sign::AssignDivide => Some(AssignOperator::Compound(Arithmetic::Divide)),
        Sign::AssignRemainder => Some(AssignOperator::Compound(Arithmetic::Remainder)),
        Sign::AssignAnd => Some(AssignOperator::Compound(Arithmetic::And)),
        Sign::AssignXor => Some(AssignOperator::Compound(Arithmetic::Xor)),
        Sign::AssignOr => Some(AssignOperator::Compound(Arithmetic::Or)),
        Sign::AssignShiftLeft => Some(AssignOperator::Compound(Arithmetic::ShiftLeft)),
        Sign::AssignShiftRight => Some(AssignOperator::Compound(Arithmetic::ShiftRight)),
        _ => None,
    }
}

/// The type that the word alone stands for.
#[tactic(auto, unfolding(crate::specs::Trees::type_of))]
pub fn type_of(sign: Sign) -> Option<TypeWords>
    ensures { result ≡ spec.type_of sign }
{
    match sign {
        Sign::Char => Some(TypeWords::Char),
        Sign::Int => Some(TypeWords::Int),
        Sign::Signed => Some(TypeWords::Signed),
        Sign::Unsigned => Some(TypeWords::Unsigned),
        _ => None,
    }
}

/// The type with this word behind it.
#[tactic(auto, unfolding(crate::specs::Trees::joined))]
pub fn joined(words: TypeWords, sign: Sign) -> Option<TypeWords>
    ensures { result ≡ spec.joined words sign }
{
    match (words, sign) {
        (TypeWords::Char, Sign::Signed) => Some(TypeWords::CharSigned),
        (TypeWords::Char, Sign::Unsigned) => Some(TypeWords::CharUnsigned),
        (TypeWords::Int, Sign::Signed) => Some(TypeWords::IntSigned),
        (TypeWords::Int, Sign::Unsigned) => Some(TypeWords::IntUnsigned),
        (TypeWords::Signed, Sign::Char) => Some(TypeWords::SignedChar),
        (TypeWords::Signed, Sign::Int) => Some(TypeWords::SignedInt),
        (TypeWords::Unsigned, Sign::Char) => Some(TypeWords::UnsignedChar),
        (TypeWords::Unsigned, Sign::Int) => Some(TypeWords::UnsignedInt),
        _ => None,
    }
}

/// Whether a declaration begins with this word.
#[tactic(auto, unfolding(crate::specs::Trees::begins_declaration))]
pub fn begins_declaration(sign: Sign) -> bool
    ensures { result ≡ spec.begins_declaration sign }
{
    matches!(
        sign,
        Sign::Void | Sign::Char | Sign::Int | Sign::Signed | Sign::Unsigned
    )
}

//! The spelling of operators, those between two operands with a blank on each side.

use c_tree::syntax::{Arithmetic, BinaryOperator, StepOperator, UnaryOperator};

pub fn binary(operator: BinaryOperator) -> &'static [u8] {
    match operator {
        BinaryOperator::LogicalOr => b" || ",
        BinaryOperator::LogicalAnd => b" && ",
        BinaryOperator::Or => b" | ",
        BinaryOperator::Xor => b" ^ ",
        BinaryOperator::And => b" & ",
        BinaryOperator::Equal => b" == ",
        BinaryOperator::NotEqual => b" != ",
        BinaryOperator::Less => b" < ",
        BinaryOperator::Greater => b" > ",
        BinaryOperator::LessEqual => b" <= ",
        BinaryOperator::GreaterEqual => b" >= ",
        BinaryOperator::ShiftLeft => b" << ",
        BinaryOperator::ShiftRight => b" >> ",
        BinaryOperator::Add => b" + ",
        BinaryOperator::Subtract => b" - ",
        BinaryOperator::Multiply => b" * ",
        BinaryOperator::Divide => b" / ",
        BinaryOperator::Remainder => b" % ",
    }
}

/// A compound assignment.
pub fn compound(operator: Arithmetic) -> &'static [u8] {
    match operator {
        Arithmetic::Add => b" += ",
        Arithmetic::Subtract => b" -= ",
        Arithmetic::Multiply => b" *= ",
        Arithmetic::Divide => b" /= ",
        Arithmetic::Remainder => b" %= ",
        Arithmetic::And => b" &= ",
        Arithmetic::Xor => b" ^= ",
        Arithmetic::Or => b" |= ",
        Arithmetic::ShiftLeft => b" <<= ",
        Arithmetic::ShiftRight => b" >>= ",
    }
}

pub fn unary(operator: UnaryOperator) -> &'static [u8] {
    match operator {
        UnaryOperator::Plus => b"+",
        UnaryOperator::Minus => b"-",
        UnaryOperator::Complement => b"~",
        UnaryOperator::Not => b"!",
    }
}

pub fn step(operator: StepOperator) -> &'static [u8] {
    match operator {
        StepOperator::Increment => b"++",
        StepOperator::Decrement => b"--",
    }
}

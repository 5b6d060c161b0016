//! The operators that helpers stand for.

/// An operator, in the order in which helpers stand in a program.
#[derive(Clone, Copy, PartialEq, Eq, Debug)]
pub enum Operator {
    Multiply,
    Divide,
    DivideUnsigned,
    Remainder,
    RemainderUnsigned,
    ShiftLeft,
    ShiftRight,
    ShiftRightUnsigned,
    Xor,
}

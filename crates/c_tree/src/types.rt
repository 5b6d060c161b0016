//! Types of C.

/// A type of an object, an expression or a function's result. `char` and `signed char` are one.
#[derive(Clone, Copy, PartialEq, Eq, Debug)]
pub enum CType {
    Schar,
    Uchar,
    Int,
    Unsigned,
    Void,
}

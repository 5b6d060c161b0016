//! What names stand for, and what is told of a fault.

use c_tree::typed::{Callee, Variable};
use c_tree::{At, CType, TypedExpr};
use sqlite_items::{Boxed, Items};

/// A rule that is broken, and where.
#[derive(Clone, Copy, PartialEq, Eq, Debug)]
pub struct Fault {
    pub rule: u8,
    pub at: At,
}

/// What a name stands for.
#[derive(Clone, Copy, PartialEq, Eq, Debug)]
pub enum Meaning {
    Scalar(Variable, CType),
    /// With the number of elements.
    Array(Variable, CType, u32),
    /// By its number among the signatures.
    Function(u32),
    /// The macro `EOF` (C11 7.21.1).
    EndOfFile,
}

/// How many elements a declared object has.
#[derive(Clone, Copy, PartialEq, Eq, Debug)]
pub enum Extent {
    Scalar,
    Elements(u32),
    /// The size is faulty.
    Unknown,
}

/// The type of a function.
#[derive(Drop)]
pub struct Signature {
    pub result: CType,
    pub params: Items<CType>,
    /// What a call of it calls; none where the function is defined nowhere.
    pub callee: Option<Callee>,
}

/// How a name is used.
#[derive(Clone, Copy, PartialEq, Eq, Debug)]
pub enum Usage {
    Object,
    /// With an index.
    Array,
    /// With so many arguments.
    Function(usize),
}

/// What is seen of an expression: the place of its first token and its typed tree. A faulty
/// expression has none.
#[derive(Drop)]
pub struct Typing {
    pub at: At,
    pub tree: Option<Boxed<TypedExpr>>,
}

/// What stands around a statement.
#[derive(Clone, Copy, PartialEq, Eq, Debug)]
pub struct Around {
    /// What the function gives.
    pub result: CType,
    /// How many names are declared in the scopes around the statement's own.
    pub start: usize,
    /// Whether it stands directly in a switch's block.
    pub labels_stand: bool,
    /// Whether it stands in a loop.
    pub loops: bool,
    /// Whether it stands in a loop or a switch.
    pub breaks: bool,
}

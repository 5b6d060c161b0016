//! Trees.

use crate::cells::{Cell, Lab};
use rtl_word::Rel;

/// How much of memory is read or stored.
#[derive(Clone, Copy, Debug, PartialEq, Eq)]
pub enum Width {
    /// One byte, read as 0 to 255.
    Byte,
    /// A word, low byte first.
    Full,
}

/// An operator on one tree.
#[derive(Clone, Copy, Debug, PartialEq, Eq)]
pub enum UnOp {
    Neg,
    Not,
    /// The sign of the low byte is extended.
    Sxb,
    /// The test of a flag, or of a pair of trees.
    Test(Rel),
}

/// An operator on two trees.
#[derive(Clone, Copy, Debug, PartialEq, Eq)]
pub enum BinOp {
    Add,
    Sub,
    Mul,
    Div,
    Divu,
    Rem,
    Remu,
    And,
    Or,
    Xor,
    Shl,
    Shr,
    Shru,
    /// A relation, which gives 0 or 1.
    Cmp(Rel),
    /// The pair that a flag holds, written `?`.
    Pair,
    /// A condition and the place to which the program counter goes where it isn't 0, written `->`.
    When,
}

/// A tree.
#[derive(Debug, Drop)]
pub enum Expr {
    /// A number, below 2 to the word's bits.
    Num(u32),
    /// The address of an object, by the object's place among the names.
    Sym(u16),
    Label(Lab),
    Cell(Cell),
    /// What stands in memory at an address.
    Mem(Width, Box<Expr>),
    Un(UnOp, Box<Expr>),
    Bin(BinOp, Box<Expr>, Box<Expr>),
    /// What a flag becomes that loses its pair.
    Lost,
    /// The number hole of a description's row.
    NumHole(u8),
    /// The hole of a description's row for a symbol or a label.
    NameHole(u8),
}

//! What a token says to a reader.

use crate::signs::Sign;
use rtl_tree::{BinOp, Cell, Lab, UnOp, Width};

/// The cells that are written with an index.
#[derive(Clone, Copy, Debug, PartialEq, Eq)]
pub enum Bank {
    Register,
    Temporary,
    Flag,
}

/// What a token says, wherever it stands. The eight marks that are operators say so.
#[derive(Clone, Copy, Debug, PartialEq, Eq)]
pub enum Sense {
    /// A number in the range of a word, as a word.
    Number(u32),
    /// The name of an object, by its place among the names.
    Object(u16),
    Label(Lab),
    /// A cell that has no index.
    Cell(Cell),
    Bank(Bank),
    Memory(Width),
    Unary(UnOp),
    Binary(BinOp),
    Lost,
    Sign(Sign),
    /// Anything else.
    Strange,
}

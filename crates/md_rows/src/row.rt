//! Rows and their holes.

use rtl_tree::Effects;
use sqlite_items::Items;

/// One token of a row's text, or a hole by its place among the row's holes.
#[derive(Debug, Drop)]
pub enum Piece {
    Name(Items<u8>),
    Num(i64),
    Byte(u8),
    Hole(u8),
}

/// What a hole of a row takes.
#[derive(Clone, Copy, Debug, PartialEq, Eq)]
pub enum Hole {
    /// A register of a class, which has a bit for each of its registers.
    Reg(u64),
    /// A number that is printed as one from `low` to `high`. Its value is the printed number modulo 2 to the word's bits, and where
    /// the hole is inverted the complement of that.
    Num { low: i64, high: i64, inverted: bool },
    /// The address of an object.
    Sym,
    /// A place in the code.
    Label,
}

/// A line of assembly with holes, and the transfer that it makes.
#[derive(Debug, Drop)]
pub struct Row {
    /// The line of the description that the row came from, counted from 1.
    pub line: u32,
    pub text: Items<Piece>,
    pub holes: Items<Hole>,
    pub effects: Effects,
    /// The normal form of `effects`, once the description has been checked, and a copy of them before.
    pub normal: Effects,
}

//! The text of a row or of a mode.

use sqlite_items::Items;

/// The numbers that a hole prints: those of a word with its sign, or those from the first to the second.
#[derive(Clone, Copy, Debug, PartialEq, Eq)]
pub enum Range {
    OfWord,
    Between(i64, i64),
}

/// What a hole is for.
#[derive(Debug, Drop)]
pub enum Kind {
    /// A class or a mode.
    Named(Items<u8>),
    /// Numbers, whose complement is meant where they are inverted.
    Numbers { inverted: bool, range: Range },
    Symbols,
    Labels,
}

/// A hole of a text.
#[derive(Debug, Drop)]
pub struct Slot {
    pub name: Items<u8>,
    pub kind: Kind,
}

/// A token of an assembly line, or a hole.
#[derive(Debug, Drop)]
pub enum Piece {
    Name(Items<u8>),
    Number(i64),
    Mark(u8),
    Hole(Slot),
}

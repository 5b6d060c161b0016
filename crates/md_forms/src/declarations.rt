//! What a line says.

use crate::pieces::Piece;
use crate::trees::{OpenTransfer, OpenTree};
use md_rows::Role;
use sqlite_items::Items;

/// What a line may say.
#[derive(Debug, Drop)]
pub enum Form {
    Version,
    MachineName(Items<u8>),
    WordBits(i64),
    MemorySize(i64),
    DataBegin(i64),
    StackSize(i64),
    RegisterLine {
        number: i64,
        name: Items<u8>,
        role: Role,
    },
    FlagLine {
        number: i64,
        name: Items<u8>,
    },
    /// A class, and its registers by name.
    ClassLine {
        name: Items<u8>,
        registers: Items<Items<u8>>,
    },
    /// An alternative of a mode: what is written, and what it means.
    ModeLine {
        name: Items<u8>,
        text: Items<Piece>,
        tree: OpenTree,
    },
    /// A line of assembly, and the transfer that it makes.
    RowLine {
        text: Items<Piece>,
        transfer: OpenTransfer,
    },
}

/// What the line of this number says.
#[derive(Debug, Drop)]
pub struct Declaration {
    pub line: u32,
    pub form: Form,
}

/// What a text says, line by line.
#[derive(Debug, Drop)]
pub struct Declared {
    /// The bits of a word by which transfers are read, 16 or 32.
    pub width: u32,
    pub all: Items<Declaration>,
    /// The number of the last line.
    pub last: u32,
}

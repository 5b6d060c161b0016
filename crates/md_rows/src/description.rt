//! Descriptions as they are read.

use crate::row::Row;
use sqlite_items::Items;

/// What a register is for.
#[derive(Clone, Copy, Debug, PartialEq, Eq)]
pub enum Role {
    General,
    Result,
    Stack,
    Link,
    Other,
}

/// A hard register.
#[derive(Debug, Drop)]
pub struct Register {
    pub number: u8,
    pub name: Items<u8>,
    pub role: Role,
}

/// A flag.
#[derive(Debug, Drop)]
pub struct FlagName {
    pub number: u8,
    pub name: Items<u8>,
}

/// What the text of a description says.
#[derive(Debug, Drop)]
pub struct RawDescription {
    pub name: Items<u8>,
    /// The bits of a word, 16 or 32.
    pub word: u32,
    /// The size of memory in bytes.
    pub memory: u32,
    /// The address at which data begins.
    pub base: u32,
    /// The bytes that the stack may take, at the end of memory.
    pub stack: u32,
    pub registers: Items<Register>,
    pub flags: Items<FlagName>,
    pub rows: Items<Row>,
    /// The number of the text's last line.
    pub last: u32,
}

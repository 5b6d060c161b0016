//! Code with temporaries.

use md_rows::Instance;
use rtl_tree::{Effects, Names};
use sqlite_items::Items;

/// A transfer, and the instruction that makes it.
#[derive(Debug, Drop)]
pub struct Transfer {
    pub what: Effects,
    pub by: Instance,
}

/// How a basic block ends. `Fall`, `Branch` and `Call` go on to the next block.
#[derive(Debug, Drop)]
pub enum End {
    Fall,
    Jump(Transfer),
    Branch(Transfer),
    Call(Transfer),
    Return,
}

/// A basic block: transfers that are made one after the other, and an end.
#[derive(Debug, Drop)]
pub struct Block {
    pub label: u32,
    pub body: Items<Transfer>,
    pub end: End,
}

/// A loop of a code, which is a run of its blocks: the positions of the block before it, which falls into it, of its first block and of
/// its last, which leads back to the first.
#[derive(Clone, Copy, Debug, PartialEq, Eq)]
pub struct LoopMark {
    pub before: u32,
    pub first: u32,
    pub last: u32,
}

/// The code of a function.
#[derive(Debug, Drop)]
pub struct Code {
    /// The function, by its place among the names.
    pub function: u16,
    /// The number of its parameters.
    pub params: u8,
    /// The bytes of its frame.
    pub frame: u32,
    /// The offset of home 0 from the stack register, in bytes.
    pub first_home: u32,
    /// The number of homes, each of a word. Behind them the arrays begin.
    pub slots: u16,
    /// The home of each temporary.
    pub homes: Items<u16>,
    /// The first is entered.
    pub blocks: Items<Block>,
}

/// The codes of a program, with the address of each object of its names and the bytes of its data.
#[derive(Drop)]
pub struct Unit {
    pub codes: Items<Code>,
    pub symbols: Items<u32>,
    /// From the address on at which the description's data begin.
    pub bytes: Items<u8>,
    pub names: Names,
}

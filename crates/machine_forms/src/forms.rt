//! The common forms of transfers, flat.

use rtl_tree::{BinOp, Effects, UnOp, Width};
use rtl_word::Rel;
use sqlite_items::Boxed;

/// An address in memory.
#[derive(Clone, Copy)]
pub enum Address {
    /// What a register holds.
    In(u8),
    /// The sum of what a register holds and a number.
    Beyond(u8, u32),
    Fixed(u32),
}

/// What is read of registers and memory without an operator.
#[derive(Clone, Copy)]
pub enum Source {
    Register(u8),
    Number(u32),
    Memory(Width, Address),
}

/// What is computed.
#[derive(Clone, Copy)]
pub enum Value {
    Plain(Source),
    Unary(UnOp, Source),
    Binary(BinOp, Source, Source),
}

/// What becomes of a flag beside a value that is compared with a number.
#[derive(Clone, Copy)]
pub enum FlagTo {
    /// It holds the value and the number.
    Compared(u8),
    Lost(u8),
}

/// What becomes of three flags beside a value: the first holds the value and a number.
#[derive(Clone, Copy)]
pub struct FlagsTo {
    pub number: u32,
    pub first: u8,
    pub second: FlagTo,
    pub third: FlagTo,
}

/// A transfer of one of the common forms. A place is the number of an instruction.
#[derive(Clone, Copy)]
pub enum Form {
    /// A register takes a value.
    Set(u8, Value),
    /// Memory takes a value at an address.
    Store(Width, Address, Value),
    /// The program goes on at a place where a relation holds.
    Branch(Rel, Source, Source, u32),
    /// The program goes on at a place where a relation holds of the pair in a flag.
    Test(Rel, u8, u32),
    Jump(Source),
    /// A register takes the number of the next instruction, and the program goes on at a place.
    Link(u8, u32),
    /// A register takes a value, with flags.
    SetFlags(u8, Value, FlagsTo),
    /// Memory takes a value at an address, with flags.
    StoreFlags(Width, Address, Value, FlagsTo),
}

/// A transfer that is ready to be made: in a common form, or as it was.
#[derive(Drop)]
pub enum Prepared {
    Common(Form),
    General(Boxed<Effects>),
}

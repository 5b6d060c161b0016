//! Operations, before a described machine's instructions are chosen for them.

use rtl_tree::BinOp;
use rtl_word::Rel;

/// How a block ends.
#[derive(Clone, Copy, Debug, PartialEq, Eq)]
pub enum Stop {
    /// It goes on to the next block.
    Falls,
    /// To the block with this label.
    Jumps(u32),
    /// To the block with this label where the relation holds of two temporaries, else to the next one.
    Branches(Rel, u16, u16, u32),
    /// A call of a function, by its number in the tree.
    Calls(u32),
    Returns,
}

/// An operation on temporaries. The first temporary is the one that is set, where one is.
#[derive(Clone, Copy, Debug, PartialEq, Eq)]
pub enum Op {
    Copy(u16, u16),
    Constant(u16, u32),
    /// The address of an object of the file, by its number in the tree.
    Address(u16, u32),
    /// The word at an address.
    Load(u16, u16),
    /// At the address in the first temporary.
    Store(u16, u16),
    LoadByte(u16, u16),
    StoreByte(u16, u16),
    /// The result takes the place of the left operand.
    Operate(BinOp, u16, u16),
    Complement(u16),
    ReadStack(u16),
    /// From so many bytes above the stack register.
    LoadHome(u16, u32),
    StoreHome(u16, u32),
    /// To where the stack register points.
    StoreTop(u16),
    TakeInput,
    PutOutput,
    ReadResult(u16),
    SetResult(u16),
    /// The bits that two have in common. The second one may be lost.
    Meet(u16, u16),
    /// So many bytes for each element of the size of a word. The second temporary may be used up.
    Scale(u16, u16),
    /// The low byte with its sign extended. The second temporary may be used up.
    Extend(u16, u16),
    /// The open block ends, and one with this label is opened.
    Close(Stop, u32),
}

//! The transfers of the shapes.

ghost use Rattle.std.specs.Prelude.{◌≡◌, slice_get};
ghost use Rattle.md_shapes.specs.Patterns.{pattern_by, pattern_of as pattern_of_shape};

use crate::table::Shape;
use rtl_tree::BinOp;
use rtl_word::Rel;

/// What a shape does. `a` and `b` are general registers or temporaries, s is the stack register, q the result register and z the link
/// register, n and k are numbers.
#[derive(Clone, Copy, Debug, PartialEq, Eq)]
pub enum Pattern {
    /// `a = b`
    Copy,
    /// `a = n`, n a word
    SetNumber,
    /// `a = y`, y a symbol
    SetSymbol,
    /// `a = M[b]`
    Load,
    /// `M[a] = b`
    Store,
    /// `a = (sxb B[b])`
    LoadByte,
    /// `B[a] = b`
    StoreByte,
    /// `a = M[(s + k)]`, k in the frame
    LoadHome,
    /// `M[(s + k)] = a`
    StoreHome,
    /// `M[s] = a`
    StoreTop,
    /// `a = s`
    ReadStack,
    /// `s = (s + n)`
    MoveStack,
    /// `s = n`, n the size of memory
    SetStack,
    /// `a = (a op b)`
    Operate(BinOp),
    /// `a = (not a)`
    Complement,
    /// `a = (a & (not b))`
    Clear,
    /// `PC = l`
    Jump,
    /// `PC = ((a rel b) -> l)`
    Branch(Rel),
    /// `f = (a ? b)`
    Compare(u8),
    /// `PC = ((f rel) -> l)`
    BranchByFlag(Rel, u8),
    /// `z = PC; PC = l`, or `M[(s + -wb)] = PC; s = (s + -wb); PC = l` where there is no link register
    Call,
    /// `PC = z`, or `PC = M[s]; s = (s + wb)`
    Return,
    /// `M[(s + k)] = z`
    SaveLink,
    /// `z = M[(s + k)]`
    RestoreLink,
    /// `q = IN`
    TakeInput,
    /// `OUT = q`
    PutOutput,
    /// `HALT = q`
    Halt,
    /// `a = q`
    ReadResult,
    /// `q = a`
    SetResult,
    /// `a = (sxb a)`
    ExtendByte,
}

// The first transfer of each shape, by number, from 1 on.
const FIRST_PATTERNS: [Pattern; 39] = [
    Pattern::Copy,
    Pattern::SetNumber,
    Pattern::SetSymbol,
    Pattern::Load,
    Pattern::Store,
    Pattern::LoadByte,
    Pattern::StoreByte,
    Pattern::LoadHome,
    Pattern::StoreHome,
    Pattern::StoreTop,
    Pattern::ReadStack,
    Pattern::MoveStack,
    Pattern::SetStack,
    Pattern::Operate(BinOp::Add),
    Pattern::Operate(BinOp::Sub),
    Pattern::Operate(BinOp::Or),
    Pattern::Complement,
    Pattern::Operate(BinOp::And),
    Pattern::Jump,
    Pattern::Branch(Rel::Eq),
    Pattern::Call,
    Pattern::Return,
    Pattern::SaveLink,
    Pattern::RestoreLink,
    Pattern::TakeInput,
    Pattern::PutOutput,
    Pattern::Halt,
    Pattern::ReadResult,
    Pattern::SetResult,
    Pattern::Operate(BinOp::Mul),
    Pattern::Operate(BinOp::Div),
    Pattern::Operate(BinOp::Divu),
    Pattern::Operate(BinOp::Rem),
    Pattern::Operate(BinOp::Remu),
    Pattern::Operate(BinOp::Shl),
    Pattern::Operate(BinOp::Shr),
    Pattern::Operate(BinOp::Shru),
    Pattern::Operate(BinOp::Xor),
    Pattern::ExtendByte,
];

fn pattern_at(list: &[Pattern], place: usize) -> Option<Pattern>
    ensures { result ≡ slice_get list.now place }
{
    list.get(place).copied()
}

fn first_pattern(number: u8) -> Option<Pattern>
    ensures { result ≡ pattern_by number }
{
    if number == 0 {
        return None;
    }
    pattern_at(&FIRST_PATTERNS, usize::from(number) - 1)
}

/// What a shape does. There is none for a shape that is not in the list.
pub fn pattern_of(shape: Shape) -> Option<Pattern>
    ensures { result ≡ pattern_of_shape shape }
{
    match (shape.number, shape.form) {
        (18, 1) => Some(Pattern::Clear),
        (20, 0) => Some(Pattern::Branch(shape.relation)),
        (20, 1) => Some(Pattern::Compare(shape.flag)),
        (20, _) => Some(Pattern::BranchByFlag(shape.relation, shape.flag)),
        (number, _) => first_pattern(number),
    }
}

//! The numbers of a function's frame.

ghost use Rattle.std.specs.Prelude.{◌≡◌, ◌+◌, ◌<◌, IfOk, max};
ghost use Rattle.naive_expand.specs.Frames.{HasSmallFrame, IsFrameOf};

use c_limits::{frame_of, needs_of};
use c_tree::Function;
use naive_expr::word_bytes;
use naive_stat::scalars_of;
use rtl_tree::NoMemory;
use rtl_word::Word;

/// What a function's frame has, by bytes from the stack register on: the outgoing arguments and the link, the homes, and the arrays.
#[derive(Clone, Copy, Debug)]
pub(crate) struct Frame {
    /// The number of parameters and local scalars.
    pub scalars: u16,
    /// The number of homes.
    pub slots: u16,
    /// Where home 0 is.
    pub first_home: u32,
    /// Where the arrays begin.
    pub arrays: u32,
    /// How long the frame is.
    pub bytes: u32,
}

/// The homes of a function with so many scalars: 16 are in reserve, and 4 are more than the depth of evaluation.
fn slots(scalars: u16, depth: u64) -> u16
    requires { scalars + depth < 20000 }
    ensures { result ≡ 16 + scalars + (depth + 4) }
{
    20 + scalars + depth as u16
}

/// The words of outgoing arguments, and that of the link.
fn outgoing(arguments: usize) -> u32
    requires { arguments < 20000 }
    ensures { result ≡ max 2 arguments + 1 }
{
    arguments.max(2) as u32 + 1
}

/// The frame of a function within the limit on frames.
pub(crate) fn frame_for<W: Word>(f: &Function) -> Result<Frame, NoMemory>
    requires { HasSmallFrame W.BITS f.now }
    ensures { IfOk result (IsFrameOf W.BITS f.now) }
{
    let needs = needs_of(f);
    let scalars = scalars_of(f)?;
    let slots = slots(scalars, needs.depth);
    let before = outgoing(needs.arguments);
    let word = word_bytes(W::BITS);
    Ok(Frame {
        scalars,
        slots,
        first_home: word * before,
        arrays: word * (before + u32::from(slots)),
        bytes: frame_of::<W>(f) as u32,
    })
}

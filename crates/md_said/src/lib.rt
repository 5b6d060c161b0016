//! What the rules of a description's text give of the description that an accepted text says: the facts on which its rows are
//! compared with each other and with the shapes, and the limits of its registers, rows and holes.
#![tactic(auto)]

ghost use Rattle.md_said.specs.Sound.{SaidIsSound};
ghost use Rattle.md_said.specs.Limits.{SaidIsLimited};

/// What an accepted text says is sound: names of registers differ and aren't reserved, ranges are in order, and each row has its holes
/// where their kinds can stand, names no temporary, symbol or label, and has words for numbers.
pub fn said_is_sound()
    ensures { SaidIsSound }
{}

/// What an accepted text says is within limits: registers have numbers below 64, each another, and there are at most 4,096 rows, with
/// at most eight holes each.
pub fn said_is_limited()
    ensures { SaidIsLimited }
{}

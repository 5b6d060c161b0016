//! What the rules of a description's text give of the machine that an accepted text says: its memory, and what its rows' transfers may
//! be, so that a machine with 64 registers and 8 flags can make the transfer of each row.
//!
//! specs/Bounds.antt has what is said, and proofs/ its parts: `Cells`, that what is spelled names such cells alone, and that holes and
//! modes keep to it; `Deciding`, that a transfer is well formed is decided by a test; `Whole`, the memory, and what the rule on transfers
//! gives.
#![tactic(auto)]

ghost use Rattle.md_bounds.specs.Bounds.{SaidIsBounded};

/// What an accepted text says is bounded: its addresses are words, and the transfers of its rows are well formed, holes and all, and name
/// registers below 64 and flags below 8.
pub fn said_is_bounded()
    ensures { SaidIsBounded }
{}

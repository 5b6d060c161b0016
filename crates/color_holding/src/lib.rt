//! Old code and coloured code inside a body.
//!
//! specs/Holding relates the view of the old code and that of the coloured code between two transfers, specs/Places says what is asked of
//! a transfer by what is live before it and behind it. Loads, a transfer with registers and stores then keep what the old transfer does,
//! and so does a body.
#![tactic(auto)]

ghost use Rattle.color_holding.specs.Laws.{TransferKeeps, BodyKeeps};

/// A coloured transfer keeps what the old one does.
pub fn transfer_keeps()
    ensures { TransferKeeps }
{}

/// A coloured body keeps what the old one does.
pub fn body_keeps()
    ensures { BodyKeeps }
{}

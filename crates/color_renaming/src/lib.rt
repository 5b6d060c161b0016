//! Registers in place of temporaries.
//!
//! specs/Renaming puts registers in place of the temporaries of a transfer. specs/Does says what such a transfer does: what the transfer
//! with temporaries does on the view in which each temporary holds what its register does.
#![tactic(auto)]

ghost use Rattle.color_renaming.specs.Does.{RenamedDoes, RenamedIsPlain};

/// With registers a transfer does what it does with temporaries, where what it sets is in different registers.
pub fn renamed_does()
    ensures { RenamedDoes }
{}

/// No temporary is left in it.
pub fn renamed_is_plain()
    ensures { RenamedIsPlain }
{}

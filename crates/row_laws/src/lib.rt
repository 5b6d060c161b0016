//! Laws of the instances of an accepted description, whatever row they are of.
//!
//! The functions of this crate have no code. specs/Formed.antt says that the transfer of an instance is well formed, its numbers are words,
//! and no hole is left in it.
#![tactic(auto)]

ghost use Rattle.row_laws.specs.Formed.{RealisedAreFormed};

use md_bounds::said_is_bounded;
use md_said::said_is_sound;

/// The transfer of an instance of an accepted description is well formed, its numbers are words, and no hole is left in it.
pub fn realised_are_formed()
    ensures { RealisedAreFormed }
{
    said_is_sound();
    said_is_bounded();
}

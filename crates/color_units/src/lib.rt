//! Units whose codes have their temporaries in registers and homes.
//!
//! specs/Units says when one unit is another one coloured, code by code, each by some colouring of its own. The one function of this crate has
//! no code: registers of an accepted description that are colours are general.
#![tactic(auto)]

ghost use Rattle.color_units.specs.Units.{ColorsAreGeneral};

use md_covers::laws::general_bits_are_a_sum;
use md_said::said_is_limited;

/// A colouring puts temporaries into general registers alone.
pub fn colors_are_general()
    ensures { ColorsAreGeneral }
{
    said_is_limited();
    general_bits_are_a_sum();
}

//! Which programs can be loaded.

ghost use Rattle.rtl_machine.specs.Loading.{TextsAreLoadable};

use md_bounds::said_is_bounded;
use md_said::said_is_sound;

/// The program of an assembly text can be loaded, where the description is accepted.
pub fn texts_are_loadable()
    ensures { TextsAreLoadable }
{
    said_is_sound();
    said_is_bounded();
}

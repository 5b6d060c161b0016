//! The flags of a set of cells.

ghost use Rattle.std.specs.Prelude.{◌≡◌, ◌<◌, ◌^◌, ◌==◌, ℕ, cond};
ghost use Rattle.std.specs.Int.{bit_at};
ghost use Rattle.rtl_tree.specs.Sets.{bits_of};
ghost use Rattle.recogniser.specs.Searching.{HasBit, HasBitsBelow};

use rtl_tree::{Cell, CellSet};

fn bit(place: u8) -> u8
    requires { place < 8 }
    ensures { result ≡ 2 ^ place }
{
    1 << place
}

fn flag_bit(set: CellSet, flag: u8) -> u8
    requires { flag < 8 }
    ensures { HasBit (bits_of set.entry).flags result flag }
{
    if set.has(Cell::Flag(flag)) {
        bit(flag)
    } else {
        0
    }
}

/// The flags of a set, with a bit for each.
pub(crate) fn flags_of(set: CellSet) -> u8
    ensures { result ≡ (bits_of set.entry).flags }
{
    let mut flags = 0;
    for flag in 0..8 {
        flags |= flag_bit(set, flag);
    }
    flags
}

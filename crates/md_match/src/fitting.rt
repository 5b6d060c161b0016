//! Which values fit which holes.

ghost use Rattle.std.specs.Prelude.{◌≡◌, ◌<◌, ◌^◌, nat_lt};
ghost use Rattle.rtl_word.specs.Words.{IsWordSize};
ghost use Rattle.md_rows.specs.Fits.{fits as fits_hole, is_in};
ghost use Rattle.md_match.specs.Slots.{fit_of};

use md_rows::{Bound, Hole, number_of_word};
use rtl_tree::Cell;

/// Whether a set, which has a bit for each of its members, has a member. A member is below 64.
pub fn has_bit(set: u64, member: u8) -> bool
    ensures { result ≡ is_in set member }
{
    member < 64 && set >> member & 1 == 1
}

fn is_word(bits: u32, number: u32) -> bool
    requires size { IsWordSize bits }
    ensures { result ≡ nat_lt number (2 ^ bits) }
{
    bits == 32 || number < 0x1_0000
}

/// Whether a value fits a hole. `general` has a bit for each general register: a temporary stands in a hole whose class has them all.
pub fn fits(bits: u32, general: u64, hole: Hole, bound: Bound) -> bool
    requires size { IsWordSize bits }
    ensures { result ≡ fits_hole bits general hole bound }
{
    match (hole, bound) {
        (Hole::Reg(class), Bound::Reg(Cell::Hard(k))) => k < 64 && has_bit(class, k),
        (Hole::Reg(class), Bound::Reg(Cell::Temp(_))) => class & general == general,
        (
            Hole::Num {
                low,
                high,
                inverted,
            },
            Bound::Num(n),
        ) => { is_word(bits, n) && number_of_word(bits, low, high, inverted, n).is_some() }
        (Hole::Sym, Bound::Sym(_)) => true,
        (Hole::Label, Bound::Label(_)) => true,
        _ => false,
    }
}

/// Whether a value fits the hole at a place of a list. There is no hole past its end.
pub fn fits_at(bits: u32, general: u64, holes: &[Hole], place: u8, bound: Bound) -> bool
    requires size { IsWordSize bits }
    ensures { result ≡ fit_of bits general holes.now place bound }
{
    match holes.get(usize::from(place)) {
        Some(hole) => fits(bits, general, *hole, bound),
        None => false,
    }
}

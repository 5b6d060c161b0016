//! Types and words of constants (C11 6.4.4).

ghost use Rattle.std.specs.Prelude.{◌≡◌, ◌-◌, ◌%◌, ◌^◌};
ghost use Rattle.rtl_word.specs.Words.{word_of_signed};
ghost use Rattle.c_typing.specs.Expressions.{number_type};

use c_tree::CType;
use rtl_word::Word;

/// The type of a constant (C11 6.4.4.1).
pub fn number_type<W: Word>(value: u64, decimal: bool, unsigned: bool) -> Option<CType>
    ensures { result ≡ number_type W.BITS value decimal unsigned }
{
    let fits_int = value < 1 << (W::BITS - 1);
    let fits = value < 1 << W::BITS;
    if unsigned {
        return if fits { Some(CType::Unsigned) } else { None };
    }
    if fits_int {
        return Some(CType::Int);
    }
    if !decimal && fits {
        return Some(CType::Unsigned);
    }
    None
}

/// The word of a character constant, which is an int.
pub fn character<W: Word>(value: i32) -> u32
    ensures { result ≡ word_of_signed W.BITS value % 2 ^ W.BITS }
{
    let size: u64 = 1 << W::BITS;
    let word = if value < 0 {
        size.saturating_sub(u64::from(value.unsigned_abs()))
    } else {
        u64::from(value.unsigned_abs())
    };
    (word % size) as u32
}

/// The word of -1.
pub fn minus_one<W: Word>() -> u32
    ensures { result ≡ 2 ^ W.BITS - 1 }
{
    ((1u64 << W::BITS) - 1) as u32
}

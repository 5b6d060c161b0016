//! The tokens that fit holes.

ghost use Rattle.std.specs.Prelude.{◌≡◌, ◌↔◌, IsTrue};
ghost use Rattle.std.specs.Char.{is_ascii_digit};
ghost use Rattle.std.specs.List.{list_all};
ghost use Rattle.md_rows.specs.Fits.{is_in, within};
ghost use Rattle.md_text.specs.Rules.{is_block_label};
ghost use Rattle.md_overlap.specs.Overlap.{IsNamed, is_symbol};
ghost use Rattle.md_overlap.specs.Tests.{HolesShare, Shared, Takes};

use md_rows::{Hole, Piece, Register};

fn is_in(class: u64, number: u8) -> bool
    ensures { result ≡ is_in class number }
{
    number < 64 && class >> number & 1 == 1
}

fn is_of_class(register: &Register, class: u64, name: &[u8]) -> bool
    ensures { IsTrue result ↔ (IsTrue (is_in class register.now.number) × (register.now.name ≡ name.now)) }
{
    is_in(class, register.number) && register.name.as_slice() == name
}

fn is_named(registers: &[Register], class: u64, name: &[u8]) -> bool
    ensures { IsTrue result ↔ IsNamed registers.now class name.now }
{
    match registers {
        [] => false,
        [register, rest @ ..] => is_of_class(register, class, name) || is_named(rest, class, name),
    }
}

fn is_of_both(number: u8, class: u64, other: u64) -> bool
    ensures { IsTrue result ↔ (IsTrue (is_in class number) × IsTrue (is_in other number)) }
{
    is_in(class, number) && is_in(other, number)
}

fn share_register(registers: &[Register], class: u64, other: u64) -> bool
    ensures { IsTrue result ↔ Shared registers.now class other }
{
    match registers {
        [] => false,
        [register, rest @ ..] => is_of_both(register.number, class, other)
            || share_register(rest, class, other),
    }
}

fn is_symbol(name: &[u8]) -> bool
    ensures { result ≡ is_symbol name.now }
{
    match name {
        [first, ..] => *first == b'_',
        [] => false,
    }
}

fn are_digits(bytes: &[u8]) -> bool
    ensures { result ≡ list_all is_ascii_digit bytes.now }
{
    bytes.iter().all(|byte| byte.is_ascii_digit())
}

fn is_block_label(name: &[u8]) -> bool
    ensures { result ≡ is_block_label name.now }
{
    match name {
        [b'L', rest @ ..] => !rest.is_empty() && are_digits(rest),
        _ => false,
    }
}

fn lies_within(low: i64, high: i64, number: i64) -> bool
    ensures { result ≡ within low high number }
{
    low <= number && number <= high
}

/// Whether a hole takes the token of a piece that is no hole.
pub(crate) fn takes(registers: &[Register], hole: Hole, piece: &Piece) -> bool
    ensures { IsTrue result ↔ Takes registers.now hole piece.now }
{
    match (hole, piece) {
        (Hole::Reg(class), Piece::Name(name)) => is_named(registers, class, name.as_slice()),
        (Hole::Num { low, high, .. }, Piece::Num(number)) => lies_within(low, high, *number),
        (Hole::Sym, Piece::Name(name)) => is_symbol(name.as_slice()),
        (Hole::Label, Piece::Name(name)) => is_symbol(name.as_slice())
            || is_block_label(name.as_slice()),
        _ => false,
    }
}

/// Whether some token fits two holes.
pub(crate) fn holes_share(registers: &[Register], hole: Hole, other: Hole) -> bool
    ensures { IsTrue result ↔ HolesShare registers.now hole other }
{
    match (hole, other) {
        (Hole::Reg(class), Hole::Reg(more)) => share_register(registers, class, more),
        (
            Hole::Num { low, high, .. },
            Hole::Num {
                low: least,
                high: most,
                ..
            },
        ) => low <= most && least <= high,
        (Hole::Sym | Hole::Label, Hole::Sym | Hole::Label) => true,
        _ => false,
    }
}

//! The text of a row without modes.

ghost use Rattle.std.specs.Prelude.{◌≡◌, ◌++◌, map, IfOk, IsTrue};
ghost use Rattle.md_text.specs.Expansion.{taken_by, shown, low_end, high_end};
ghost use Rattle.md_forms.specs.Seen.{kind_of, piece_of, pieces_of, range_of};
ghost use Rattle.md_expand.specs.Bits.{is_size};
ghost use Rattle.md_expand.specs.Seen.{shown_of, all_shown};
ghost use Rattle.md_expand.specs.Scope.{declared_in};

use crate::scope::Scope;
use md_forms::{Kind, Piece, Range};
use md_rows::Hole;
use rtl_tree::NoMemory;
use sqlite_items::Items;
use std::alloc::Global;

/// A piece of a text without modes: a token, or a hole.
#[derive(Debug, Drop)]
pub enum Shown {
    Name(Items<u8>),
    Number(i64),
    Mark(u8),
    Vacant(Hole),
}

fn low_end(width: u32, range: Range) -> i64
    requires { IsTrue (is_size width) }
    ensures { result ≡ low_end width (range_of range) }
{
    match range {
        Range::OfWord => { if width == 16 { -0x8000 } else { -0x8000_0000 } }
        Range::Between(low, _) => low,
    }
}

fn high_end(width: u32, range: Range) -> i64
    requires { IsTrue (is_size width) }
    ensures { result ≡ high_end width (range_of range) }
{
    match range {
        Range::OfWord => { if width == 16 { 0x7fff } else { 0x7fff_ffff } }
        Range::Between(_, high) => high,
    }
}

/// What a hole takes that is for no mode; a class that isn't declared has no registers.
pub fn taken_by(scope: &Scope<'_>, kind: &Kind) -> Hole
    ensures { result ≡ taken_by scope.now.width (declared_in scope.now) (kind_of kind.now) }
{
    match kind {
        Kind::Named(name) => Hole::Reg(scope.bits_of(name.as_slice())),
        Kind::Numbers { inverted, range } => Hole::Num {
            low: low_end(scope.width, *range),
            high: high_end(scope.width, *range),
            inverted: *inverted,
        },
        Kind::Symbols => Hole::Sym,
        Kind::Labels => Hole::Label,
    }
}

/// A piece of a text without modes.
pub fn show_piece(alloc: Global, scope: &Scope<'_>, piece: &Piece) -> Result<Shown, NoMemory>
    ensures { IfOk result (λ s.
        shown_of s ≡ shown scope.now.width (declared_in scope.now) (piece_of piece.now)) }
{
    match piece {
        Piece::Name(name) => Ok(Shown::Name(Items::from_slice(alloc, name.as_slice())?)),
        Piece::Number(number) => Ok(Shown::Number(*number)),
        Piece::Mark(mark) => Ok(Shown::Mark(*mark)),
        Piece::Hole(slot) => Ok(Shown::Vacant(taken_by(scope, &slot.kind))),
    }
}

/// Writes a text without modes behind what stands there.
pub fn push_shown(
    alloc: Global,
    scope: &Scope<'_>,
    text: &[Piece],
    into: &mut Vec<Shown>,
) -> Result<(), NoMemory>
    ensures { IfOk result (λ _. all_shown into.new.items
        ≡ all_shown into.old.items ++ map (shown scope.now.width (declared_in scope.now)) (pieces_of text.now)) }
{
    for piece in text {
        into.push(show_piece(alloc, scope, piece)?)?;
    }
    Ok(())
}

//! The tokens that fit pieces of rows' texts.

ghost use Rattle.std.specs.Prelude.{◌≡◌, ◌↔◌, IsTrue, slice_get};
ghost use Rattle.md_overlap.specs.Overlap.{FitsPiece, Meet};
ghost use Rattle.md_overlap.specs.Premises.{AreInOrder, AreNames};
ghost use Rattle.md_overlap.specs.Tests.{Share, SomeShare, SomeTakes};

use crate::holes::{holes_share, takes};
use md_rows::{Hole, Piece, Register};

fn hole_takes(registers: &[Register], holes: &[Hole], place: u8, piece: &Piece) -> bool
    ensures { IsTrue result ↔ SomeTakes registers.now (slice_get holes.now place) piece.now }
{
    match holes.get(usize::from(place)) {
        Some(hole) => takes(registers, *hole, piece),
        None => false,
    }
}

fn both_share(registers: &[Register], hole: Option<Hole>, other: Option<Hole>) -> bool
    ensures { IsTrue result ↔ SomeShare registers.now hole other }
{
    match (hole, other) {
        (Some(hole), Some(other)) => holes_share(registers, hole, other),
        _ => false,
    }
}

fn share(
    registers: &[Register],
    holes: &[Hole],
    piece: &Piece,
    others: &[Hole],
    other: &Piece,
) -> bool
    ensures { IsTrue result ↔ Share registers.now holes.now piece.now others.now other.now }
{
    match (piece, other) {
        (Piece::Hole(h), Piece::Hole(k)) => {
            both_share(
                registers,
                holes.get(usize::from(*h)).copied(),
                others.get(usize::from(*k)).copied(),
            )
        }
        (Piece::Hole(h), _) => hole_takes(registers, holes, *h, other),
        (_, Piece::Hole(k)) => hole_takes(registers, others, *k, piece),
        (Piece::Name(a), Piece::Name(b)) => a.as_slice() == b.as_slice(),
        (Piece::Num(a), Piece::Num(b)) => a == b,
        (Piece::Byte(a), Piece::Byte(b)) => a == b,
        _ => false,
    }
}

/// Whether some token fits two pieces, each with the holes of its row.
pub(crate) fn meet(
    registers: &[Register],
    holes: &[Hole],
    piece: &Piece,
    others: &[Hole],
    other: &Piece,
) -> bool
    requires names { AreNames registers.now }
    requires ranges { AreInOrder holes.now }
    requires other_ranges { AreInOrder others.now }
    ensures { IsTrue result ↔ Meet (FitsPiece registers.now holes.now piece.now) (FitsPiece registers.now others.now other.now) }
{
    share(registers, holes, piece, others, other)
}

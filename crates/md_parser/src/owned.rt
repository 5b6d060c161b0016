//! Names and pieces that outlive the text.

ghost use Rattle.std.specs.Prelude.{◌≡◌, map, IfOk};
ghost use Rattle.md_lines.specs.Seen as read;
ghost use Rattle.md_forms.specs.Seen.{range_of, kind_of, slot_of, piece_of, pieces_of};

use asm_token::token::Token;
use md_forms::{Kind, Piece, Range, Slot};
use sqlite_items::Items;
use std::alloc::{AllocError, Global};

fn owned_range(range: md_lines::Range) -> Range
    ensures { range_of result ≡ read.range_of range }
{
    match range {
        md_lines::Range::OfWord => Range::OfWord,
        md_lines::Range::Between(low, high) => Range::Between(low, high),
    }
}

fn owned_kind(alloc: Global, kind: md_lines::Kind<'_>) -> Result<Kind, AllocError>
    ensures { IfOk result (λ k. kind_of k ≡ read.kind_of kind.entry) }
{
    match kind {
        md_lines::Kind::Named(name) => {
            let name = Items::from_slice(alloc, name)?;
            Ok(Kind::Named(name))
        }
        md_lines::Kind::Numbers { inverted, range } => {
            let range = owned_range(range);
            Ok(Kind::Numbers { inverted, range })
        }
        md_lines::Kind::Symbols => Ok(Kind::Symbols),
        md_lines::Kind::Labels => Ok(Kind::Labels),
    }
}

fn owned_slot(alloc: Global, slot: md_lines::Slot<'_>) -> Result<Slot, AllocError>
    ensures { IfOk result (λ h. slot_of h ≡ read.slot_of slot.entry) }
{
    let name = Items::from_slice(alloc, slot.name)?;
    let kind = owned_kind(alloc, slot.kind)?;
    Ok(Slot { name, kind })
}

fn owned_piece(alloc: Global, piece: md_lines::Piece<'_>) -> Result<Piece, AllocError>
    ensures { IfOk result (λ p. piece_of p ≡ read.piece_of piece.entry) }
{
    match piece {
        md_lines::Piece::Literal(Token::Name(name)) => {
            let name = Items::from_slice(alloc, name)?;
            Ok(Piece::Name(name))
        }
        md_lines::Piece::Literal(Token::Number(number)) => Ok(Piece::Number(number)),
        md_lines::Piece::Literal(Token::Mark(mark)) => Ok(Piece::Mark(mark)),
        md_lines::Piece::Hole(slot) => {
            let slot = owned_slot(alloc, slot)?;
            Ok(Piece::Hole(slot))
        }
    }
}

/// The pieces, with copies of their names.
pub fn owned_pieces(
    alloc: Global,
    pieces: &[md_lines::Piece<'_>],
) -> Result<Items<Piece>, AllocError>
    ensures { IfOk result (λ ps. pieces_of ps ≡ map read.piece_of pieces.now) }
{
    let mut owned = Items::new(alloc);
    for piece in pieces {
        owned.push(owned_piece(alloc, *piece)?)?;
    }
    Ok(owned)
}

/// Copies of the names.
pub fn owned_names(alloc: Global, names: &[&[u8]]) -> Result<Items<Items<u8>>, AllocError>
    ensures { IfOk result (λ ns. ns ≡ map (λ name. name.now) names.now) }
{
    let mut owned = Items::new(alloc);
    for name in names {
        owned.push(Items::from_slice(alloc, name)?)?;
    }
    Ok(owned)
}

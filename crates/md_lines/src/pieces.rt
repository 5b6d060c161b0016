//! The text of a row or mode.

ghost use Rattle.std.specs.Prelude.{◌≡◌, ◌↔◌, ℕ, List, map, IfSome, IfNone, IfOk, IsErrOf, IsTrue};
ghost use Rattle.asm_token.specs.Seen.{token_of};
ghost use Rattle.asm_token.specs.Tokens.{Token as Spelled};
ghost use Rattle.md_text.specs.Pieces.{Slot as SpelledSlot, Piece as SpelledPiece, is_colon, SpellsText, HasNoOuterSpace};
ghost use Rattle.md_lines.specs.Fronts.{BeginsWith, BeginsWithToken, BeginsWithHole};
ghost use Rattle.md_lines.specs.Seen.{piece_of};

use crate::kinds::{Slot, read_slot};
use crate::splits::{after_word, split_at_byte};
use asm_token::token::{Token, token_at};
use std::alloc::{AllocFailed, Global};

/// A piece of a text: a token of assembly lines, or a hole.
#[derive(Clone, Copy, Debug, PartialEq, Eq)]
pub enum Piece<'a> {
    Literal(Token<'a>),
    Hole(Slot<'a>),
}

/// Why a text's pieces weren't read.
#[derive(Clone, Copy, Debug, PartialEq, Eq)]
pub enum PieceFault {
    NoMemory,
    /// The bytes are no text of a row or mode.
    NoText,
}

impl<T: Drop> From<AllocFailed<T>> for PieceFault {
    ghost use Rattle.md_lines.specs.declared.pieces.PieceFault.TheVariants.{NoMemory};

    ghost from_gives = { λ _ fault. fault ≡ NoMemory };

    fn from(_: AllocFailed<T>) -> PieceFault {
        PieceFault::NoMemory
    }
}

/// The hole with which a text begins, and how many bytes it has.
fn hole_at(text: &[u8]) -> Option<(Piece<'_>, usize)>
    ensures found { IfSome result (λ found. BeginsWith text.now (piece_of found.0) found.1) }
    ensures none { IfNone result ((h : SpelledSlot) (n : ℕ) → BeginsWithHole text.now h n → ⊥) }
{
    let rest = after_word(text, b"<")?;
    let (inside, _) = split_at_byte(rest, b'>')?;
    let slot = read_slot(inside)?;
    Some((Piece::Hole(slot), inside.len() + 2))
}

/// The token with which a text begins, which may be no colon, and how many bytes it has.
fn literal_at(text: &[u8]) -> Option<(Piece<'_>, usize)>
    ensures found { IfSome result (λ found. BeginsWith text.now (piece_of found.0) found.1) }
    ensures none { IfNone result ((t : Spelled) (n : ℕ) → BeginsWithToken text.now t n → ⊥) }
{
    let (token, length) = token_at(text)?;
    if is_colon(token) {
        None
    } else {
        Some((Piece::Literal(token), length))
    }
}

fn is_colon(token: Token<'_>) -> bool
    ensures { result ≡ is_colon (token_of token.entry) }
{
    match token {
        Token::Mark(mark) => mark == b':',
        Token::Name(_) => false,
        Token::Number(_) => false,
    }
}

/// The piece with which a text begins, and how many bytes it has.
fn piece_at(text: &[u8]) -> Option<(Piece<'_>, usize)>
    ensures found { IfSome result (λ found. BeginsWith text.now (piece_of found.0) found.1) }
    ensures none { IfNone result ((p : SpelledPiece) (n : ℕ) → BeginsWith text.now p n → ⊥) }
{
    match hole_at(text) {
        Some(found) => Some(found),
        None => literal_at(text),
    }
}

/// Whether no space stands at the begin or the end.
fn is_trimmed(text: &[u8]) -> bool
    ensures { IsTrue result ↔ HasNoOuterSpace text.now }
{
    match text {
        [] => true,
        [first, ..] => *first != b' ' && text[text.len() - 1] != b' ',
    }
}

/// The pieces of a text of a row or mode: one or more, with spaces free between them, and none outside.
pub fn read_pieces(alloc: Global, text: &[u8]) -> Result<Vec<Piece<'_>>, PieceFault>
    ensures found { IfOk result (λ pieces. SpellsText text.now (map piece_of pieces.items)) }
    ensures refused { IsErrOf result PieceFault.NoText → (ps : List SpelledPiece) → SpellsText text.now ps → ⊥ }
{
    if !is_trimmed(text) {
        return Err(PieceFault::NoText);
    }
    let mut pieces = Vec::new(alloc);
    let mut rest = text;
    while let Some(first) = rest.first() {
        if *first == b' ' {
            rest = &rest[1..];
        } else {
            let Some((piece, length)) = piece_at(rest) else {
                return Err(PieceFault::NoText);
            };
            pieces.push(piece)?;
            rest = &rest[length..];
        }
    }
    if pieces.is_empty() {
        return Err(PieceFault::NoText);
    }
    Ok(pieces)
}

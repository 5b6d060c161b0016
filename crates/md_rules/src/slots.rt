//! Tests of the holes of a text.

ghost use Rattle.std.specs.Prelude.{◌≡◌, not, ◌==◌, ◌&&◌, ◌||◌};
ghost use Rattle.std.specs.List.{list_any};
ghost use Rattle.std.specs.Str.{bytes_eq};
ghost use Rattle.md_text.specs.Pieces.{slots, slot_names, has_name};
ghost use Rattle.md_text.specs.Rules.{has_repetition, is_unknown_kind, is_mode, misuses_hole, uses_unknown};
ghost use Rattle.md_forms.specs.Seen.{pieces_of, piece_of, kind_of, declarations_of};
ghost use Rattle.md_rules.specs.Slots.{is_slot_with};

use crate::known::Known;
use crate::names::has_name;
use md_forms::{Kind, Piece};
use sqlite_items::Items;

fn is_slot_named(piece: &Piece, name: &[u8]) -> bool
    ensures { result ≡ is_slot_with (λ h. bytes_eq h.name name.now) (piece_of piece.now) }
{
    match piece {
        Piece::Hole(slot) => slot.name.as_slice() == name,
        _ => false,
    }
}

fn any_slot_named(text: &[Piece], name: &[u8]) -> bool
    ensures { result ≡ list_any (λ p. is_slot_with (λ h. bytes_eq h.name name.now) (piece_of p)) text.now }
{
    text.iter().any(|piece| is_slot_named(piece, name))
}

/// Whether a text has a hole of this name.
pub fn has_slot(text: &[Piece], name: &[u8]) -> bool
    ensures { result ≡ has_name (slot_names (pieces_of text.now)) name.now }
{
    any_slot_named(text, name)
}

fn is_unknown_kind(known: &Known<'_>, kind: &Kind) -> bool
    ensures { result ≡ is_unknown_kind (declarations_of known.now.before.now) (kind_of kind.now) }
{
    match kind {
        Kind::Named(name) => !known.has_class(name.as_slice()) && !known.has_mode(name.as_slice()),
        _ => false,
    }
}

fn is_mode(known: &Known<'_>, kind: &Kind) -> bool
    ensures { result ≡ is_mode (declarations_of known.now.before.now) (kind_of kind.now) }
{
    match kind {
        Kind::Named(name) => known.has_mode(name.as_slice()),
        _ => false,
    }
}

fn is_slot_for_unknown(known: &Known<'_>, piece: &Piece) -> bool
    ensures { result ≡ is_slot_with (λ h. is_unknown_kind (declarations_of known.now.before.now) h.kind) (piece_of piece.now) }
{
    match piece {
        Piece::Hole(slot) => is_unknown_kind(known, &slot.kind),
        _ => false,
    }
}

fn is_slot_for_mode(known: &Known<'_>, piece: &Piece) -> bool
    ensures { result ≡ is_slot_with (λ h. is_mode (declarations_of known.now.before.now) h.kind) (piece_of piece.now) }
{
    match piece {
        Piece::Hole(slot) => is_mode(known, &slot.kind),
        _ => false,
    }
}

fn any_slot_for_unknown(known: &Known<'_>, text: &[Piece]) -> bool
    ensures { result ≡ list_any (λ p. is_slot_with (λ h. is_unknown_kind (declarations_of known.now.before.now) h.kind) (piece_of p)) text.now }
{
    text.iter().any(|piece| is_slot_for_unknown(known, piece))
}

fn any_slot_for_mode(known: &Known<'_>, text: &[Piece]) -> bool
    ensures { result ≡ list_any (λ p. is_slot_with (λ h. is_mode (declarations_of known.now.before.now) h.kind) (piece_of p)) text.now }
{
    text.iter().any(|piece| is_slot_for_mode(known, piece))
}

/// Whether a text has a hole for what isn't declared.
pub fn has_unknown_kind(known: &Known<'_>, text: &[Piece]) -> bool
    ensures { result ≡ list_any (λ h. is_unknown_kind (declarations_of known.now.before.now) h.kind) (slots (pieces_of text.now)) }
{
    any_slot_for_unknown(known, text)
}

/// Whether a text has a hole for a mode.
pub fn has_mode_slot(known: &Known<'_>, text: &[Piece]) -> bool
    ensures { result ≡ list_any (λ h. is_mode (declarations_of known.now.before.now) h.kind) (slots (pieces_of text.now)) }
{
    any_slot_for_mode(known, text)
}

/// Whether a name isn't that of a hole of the text.
pub fn lacks_slot(text: &[Piece], names: &[Items<u8>]) -> bool
    ensures { result ≡ list_any (λ name. not (has_name (slot_names (pieces_of text.now)) name)) names.now }
{
    names.iter().any(|name| !has_slot(text, name.as_slice()))
}

fn is_unused_slot(piece: &Piece, names: &[Items<u8>]) -> bool
    ensures { result ≡ is_slot_with (λ h. not (has_name names.now h.name)) (piece_of piece.now) }
{
    match piece {
        Piece::Hole(slot) => !has_name(names, slot.name.as_slice()),
        _ => false,
    }
}

fn any_unused_slot(text: &[Piece], names: &[Items<u8>]) -> bool
    ensures { result ≡ list_any (λ p. is_slot_with (λ h. not (has_name names.now h.name)) (piece_of p)) text.now }
{
    text.iter().any(|piece| is_unused_slot(piece, names))
}

/// Whether a hole of the text has none of the names.
pub fn has_unused_slot(text: &[Piece], names: &[Items<u8>]) -> bool
    ensures { result ≡ list_any (λ name. not (has_name names.now name)) (slot_names (pieces_of text.now)) }
{
    any_unused_slot(text, names)
}

/// Whether two holes of the text have one name.
pub fn has_repeated_slot(text: &[Piece]) -> bool
    ensures { result ≡ has_repetition (slot_names (pieces_of text.now)) }
{
    match text {
        [] => false,
        [Piece::Hole(slot), rest @ ..] => {
            has_slot(rest, slot.name.as_slice()) || has_repeated_slot(rest)
        }
        [_, rest @ ..] => has_repeated_slot(rest),
    }
}

/// Whether a hole stands twice in a text, or in the text alone.
pub fn misuses_hole(text: &[Piece], names: &[Items<u8>]) -> bool
    ensures { result ≡ misuses_hole (pieces_of text.now) names.now }
{
    has_repeated_slot(text) || has_unused_slot(text, names)
}

//! Names that labels, directives and symbols may have.

ghost use Rattle.std.specs.Prelude.{◌≡◌};
ghost use Rattle.std.specs.Char.{is_ascii_digit};
ghost use Rattle.std.specs.List.{list_all, list_any};
ghost use Rattle.md_text.specs.Rules.{is_block_label, is_reserved, is_reserved_piece, has_reserved_name};
ghost use Rattle.md_forms.specs.Seen.{piece_of, pieces_of, form_of, declarations_of};

use md_forms::{Declaration, Form, Piece};

fn are_digits(bytes: &[u8]) -> bool
    ensures { result ≡ list_all is_ascii_digit bytes.now }
{
    bytes.iter().all(|byte| byte.is_ascii_digit())
}

/// Whether a name is that of a block, `L` and digits.
fn is_block_label(name: &[u8]) -> bool
    ensures { result ≡ is_block_label name.now }
{
    match name {
        [b'L', rest @ ..] => !rest.is_empty() && are_digits(rest),
        _ => false,
    }
}

fn is_reserved(name: &[u8]) -> bool
    ensures { result ≡ is_reserved name.now }
{
    match name {
        [] => false,
        [first, ..] => *first == b'_' || *first == b'.' || is_block_label(name),
    }
}

fn is_reserved_piece(piece: &Piece) -> bool
    ensures { result ≡ is_reserved_piece (piece_of piece.now) }
{
    match piece {
        Piece::Name(name) => is_reserved(name.as_slice()),
        _ => false,
    }
}

fn any_reserved_piece(text: &[Piece]) -> bool
    ensures { result ≡ list_any (λ p. is_reserved_piece (piece_of p)) text.now }
{
    text.iter().any(|piece| is_reserved_piece(piece))
}

fn has_reserved_piece(text: &[Piece]) -> bool
    ensures { result ≡ list_any is_reserved_piece (pieces_of text.now) }
{
    any_reserved_piece(text)
}

/// Whether a register or a token of a text has such a name.
pub fn has_reserved_name(before: &[Declaration], form: &Form) -> bool
    ensures { result ≡ has_reserved_name (declarations_of before.now) (form_of form.now) }
{
    match form {
        Form::RegisterLine { name, .. } => is_reserved(name.as_slice()),
        Form::ModeLine { text, .. } => has_reserved_piece(text.as_slice()),
        Form::RowLine { text, .. } => has_reserved_piece(text.as_slice()),
        _ => false,
    }
}

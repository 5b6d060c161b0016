//! Whether a row's longest line is short enough.

ghost use Rattle.std.specs.Prelude.{◌≡◌, ◌&&◌, drop, nat_le, false};
ghost use Rattle.md_rows.specs.Lines.{bytes_after, is_word as is_word_piece, longest_line, longest_name as longest_in, piece_bytes as piece_length, space_bytes};
ghost use Rattle.std.specs.Fmt.{signed_decimal};
ghost use Rattle.std.specs.Prelude.{length};

use itoa::Buffer;
use md_match::has_bit;
use md_rows::{Hole, Piece, Register};

/// The most bytes of a line, with the tab before it.
const MOST: usize = 640;

// The length of the longest name of a class.
fn longest_name(class: u64, registers: &[Register]) -> usize
    ensures { result ≡ longest_in class registers.now }
{
    let mut most = 0;
    for i in 0..registers.len() {
        let register = &registers[i];
        if has_bit(class, register.number) && register.name.len() > most {
            most = register.name.len();
        }
    }
    most
}

fn number_bytes(number: i64) -> usize
    ensures { result ≡ length (signed_decimal number) }
{
    let mut buffer = Buffer::new();
    buffer.format(number).len()
}

fn piece_bytes(registers: &[Register], holes: &[Hole], piece: &Piece) -> usize
    ensures { result ≡ piece_length registers.now holes.now piece.now }
{
    match piece {
        Piece::Name(bytes) => bytes.len(),
        Piece::Num(number) => number_bytes(*number),
        Piece::Byte(_) => 1,
        Piece::Hole(h) => match holes.get(usize::from(*h)) {
            Some(Hole::Reg(class)) => longest_name(*class, registers),
            Some(Hole::Num { .. }) => 11,
            Some(Hole::Sym | Hole::Label) => 64,
            None => 0,
        },
    }
}

fn is_word(piece: &Piece) -> bool
    ensures { result ≡ is_word_piece piece.now }
{
    !matches!(piece, Piece::Byte(_))
}

fn space(word: bool, next: bool) -> usize
    ensures { result ≡ space_bytes (word && next) }
{
    if word && next { 1 } else { 0 }
}

// Whether the pieces from a place on, behind a word or behind none, take at most so many bytes.
fn is_within(
    registers: &[Register],
    holes: &[Hole],
    text: &[Piece],
    from: usize,
    most: usize,
) -> bool
    ensures { result ≡ nat_le (bytes_after registers.now holes.now false (drop from text.now)) most }
{
    let mut left = most;
    let mut word = false;
    for i in from..text.len() {
        let piece = &text[i];
        let gap = space(word, is_word(piece));
        if gap > left {
            return false;
        }
        left -= gap;
        let bytes = piece_bytes(registers, holes, piece);
        if bytes > left {
            return false;
        }
        left -= bytes;
        word = is_word(piece);
    }
    true
}

/// Whether the longest line of a row has at most 640 bytes: a register hole prints the longest name of its class, a number hole 11
/// bytes, and a hole for a symbol or a label 64.
pub fn fits_line(registers: &[Register], holes: &[Hole], text: &[Piece]) -> bool
    ensures { result ≡ nat_le (longest_line registers.now holes.now text.now) 640 }
{
    if text.is_empty() {
        return true;
    }
    let bytes = piece_bytes(registers, holes, &text[0]);
    if bytes >= MOST {
        return false;
    }
    let left = MOST - 1 - bytes;
    if text.len() == 1 {
        return true;
    }
    left > 0 && is_within(registers, holes, text, 1, left - 1)
}

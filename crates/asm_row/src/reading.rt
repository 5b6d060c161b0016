//! Rows, read from the text of a line.

ghost use Rattle.std.specs.Prelude.{◌≡◌, ◌≤◌, ◌+◌, ◌↔◌, IsTrue, List, MatchOption, Some, [], is_some, length, nat_le, option_map, slice_get};
ghost use Rattle.rtl_word.specs.Words.{IsWordSize};
ghost use Rattle.asm_token.specs.Seen.{token_of};
ghost use Rattle.asm_token.specs.Tokens.{Token as SpecToken};
ghost use Rattle.md_rows.specs.Lines.{longest_line};
ghost use Rattle.md_overlap.specs.Premises.{AreNames};
ghost use Rattle.asm_row.specs.Walk.{IsLine};
ghost use Rattle.asm_row.specs.Readable.{IsReadable};
ghost use Rattle.asm_row.specs.Reading.{assigned_by, register_of};
ghost use Rattle.asm_row.specs.Found.{AllDiffer, AreRead, CanBe, IsAmong, IsFixed, IsFound, IsRowRead, NoRow, assigned_in, values_of};

use crate::tokens::{Next, next_token};
use crate::values::{Value, read_hole};
use arrayvec::ArrayVec;
use asm_token::token::Token;
use md_covers::fits_line;
use md_rows::{Hole, Piece, RawDescription, Row};
use rtl_tree::{Assign, Cell, Place};

/// What stands in each hole of a row.
pub type Values<'a> = ArrayVec<Value<'a>, 8>;

fn is_fixed(piece: &Piece, token: Token<'_>) -> bool
    ensures { IsTrue result ↔ IsFixed piece.now (token_of token.entry) }
{
    match (piece, token) {
        (Piece::Name(bytes), Token::Name(name)) => bytes.as_slice() == name,
        (Piece::Num(number), Token::Number(shown)) => *number == shown,
        (Piece::Byte(byte), Token::Mark(mark)) => *byte == mark,
        _ => false,
    }
}

fn is_end(holes: &[Hole], text: &[u8]) -> bool
    ensures { (ts : List SpecToken) → IsLine text.now ts → (IsTrue result ↔ ((holes.now ≡ []) × (ts ≡ []))) }
{
    holes.is_empty() && matches!(next_token(text), Next::End)
}

// Reads what is left of a line along the pieces that are left, with the holes that are left. It is given up at the first token that
// doesn't fit.
fn read_pieces<'a>(
    d: &RawDescription,
    pieces: &[Piece],
    holes: &[Hole],
    text: &'a [u8],
    values: Values<'a>,
) -> Option<Values<'a>>
    requires size { IsWordSize d.now.word }
    requires room { length values.items + length holes.now ≤ 8 }
    ensures { (ts : List SpecToken) → IsLine text.now ts → AreRead d.now.word d.now.registers pieces.now holes.now ts (values_of values.entry.items) (option_map (λ r. values_of r.items) result) }
{
    let [piece, pieces @ ..] = pieces else {
        return if is_end(holes, text) {
            Some(values)
        } else {
            None
        };
    };
    let Next::Token(token, text) = next_token(text) else {
        return None;
    };
    match piece {
        Piece::Hole(_) => {
            let [hole, holes @ ..] = holes else {
                return None;
            };
            let mut values = values;
            values.push(read_hole(d, *hole, token)?);
            read_pieces(d, pieces, holes, text, values)
        }
        _ => {
            if is_fixed(piece, token) {
                read_pieces(d, pieces, holes, text, values)
            } else {
                None
            }
        }
    }
}

fn register_in(values: &[Value<'_>], hole: u8) -> Option<Cell>
    ensures { result ≡ register_of (slice_get (values_of values.now) hole) }
{
    match values.get(usize::from(hole)) {
        Some(Value::Register(number)) => Some(Cell::Hard(*number)),
        _ => None,
    }
}

// The register that an assignment of a row is to.
fn assigned(values: &[Value<'_>], assign: &Assign) -> Option<Cell>
    ensures { result ≡ assigned_by (values_of values.now) assign.now.to }
{
    match &assign.to {
        Place::Cell(Cell::Hard(number)) => Some(Cell::Hard(*number)),
        Place::Cell(Cell::Temp(number)) => Some(Cell::Temp(*number)),
        Place::Cell(Cell::Hole(hole)) => register_in(values, *hole),
        _ => None,
    }
}

fn is_assigned(values: &[Value<'_>], cell: Cell, effects: &[Assign]) -> bool
    ensures { IsTrue result ↔ IsAmong cell (assigned_in (values_of values.now) effects.now) }
{
    match effects {
        [] => false,
        [assign, rest @ ..] => {
            assigned(values, assign) == Some(cell) || is_assigned(values, cell, rest)
        }
    }
}

// Whether no two assigned registers become one.
fn differ(values: &[Value<'_>], effects: &[Assign]) -> bool
    ensures { IsTrue result ↔ AllDiffer (assigned_in (values_of values.now) effects.now) }
{
    match effects {
        [] => true,
        [assign, rest @ ..] => match assigned(values, assign) {
            Some(cell) => !is_assigned(values, cell, rest) && differ(values, rest),
            None => differ(values, rest),
        },
    }
}

fn is_short(d: &RawDescription, row: &Row) -> bool
    ensures { result ≡ nat_le (longest_line d.now.registers row.now.holes row.now.text) 640 }
{
    fits_line(
        d.registers.as_slice(),
        row.holes.as_slice(),
        row.text.as_slice(),
    )
}

fn are_apart(row: &Row, values: &[Value<'_>]) -> bool
    ensures { IsTrue result ↔ AllDiffer (assigned_in (values_of values.now) row.now.effects) }
{
    differ(values, row.effects.list.as_slice())
}

// Whether the row with these values is an instance.
fn can_be(d: &RawDescription, row: &Row, values: &[Value<'_>]) -> bool
    ensures { IsTrue result ↔ CanBe d.now row.now (values_of values.now) }
{
    are_apart(row, values) && is_short(d, row)
}

fn read_text<'a>(d: &RawDescription, row: &Row, text: &'a [u8]) -> Option<Values<'a>>
    requires size { IsWordSize d.now.word }
    requires few { length row.now.holes ≤ 8 }
    ensures { (ts : List SpecToken) → IsLine text.now ts → AreRead d.now.word d.now.registers row.now.text row.now.holes ts [] (option_map (λ r. values_of r.items) result) }
{
    let values = Values::new();
    read_pieces(d, row.text.as_slice(), row.holes.as_slice(), text, values)
}

/// What the text of a line says of the holes of a row.
pub(crate) fn read_row<'a>(d: &RawDescription, row: &Row, text: &'a [u8]) -> Option<Values<'a>>
    requires size { IsWordSize d.now.word }
    requires names { AreNames d.now.registers }
    requires few { length row.now.holes ≤ 8 }
    ensures { (ts : List SpecToken) → IsLine text.now ts → IsRowRead d.now row.now ts (option_map (λ r. values_of r.items) result) }
{
    match read_text(d, row, text) {
        Some(values) => {
            if can_be(d, row, values.as_slice()) {
                Some(values)
            } else {
                None
            }
        }
        None => None,
    }
}

/// The row at a place.
pub fn row_at(d: &RawDescription, place: u16) -> &Row
    requires { IsTrue (is_some (slice_get d.now.rows place)) }
    ensures { slice_get d.now.rows place ≡ Some result.now }
{
    match d.rows.as_slice().get(usize::from(place)) {
        Some(row) => row,
        None => unreachable!(),
    }
}

/// The row of which a text is a line, and what stands in the row's holes. The rows are tried in order.
pub fn find_row<'a>(d: &RawDescription, text: &'a [u8]) -> Option<(u16, Values<'a>)>
    requires readable { IsReadable d.now }
    ensures { (ts : List SpecToken) → IsLine text.now ts → MatchOption result (NoRow d.now ts) (λ r. IsFound d.now ts r.0 (values_of r.1.items)) }
{
    let count = d.rows.len() as u16;
    for place in 0..count {
        if let Some(values) = read_row(d, row_at(d, place), text) {
            return Some((place, values));
        }
    }
    None
}

//! Rows at some places, read from the text of a line.

ghost use Rattle.std.specs.Prelude.{◌≡◌, List, MatchOption, None, Some, length, option_map, slice_get};
ghost use Rattle.asm_token.specs.Tokens.{Token};
ghost use Rattle.asm_row.specs.Walk.{IsLine};
ghost use Rattle.asm_row.specs.Readable.{IsReadable};
ghost use Rattle.asm_row.specs.Found.{IsFound, NoRow, values_of};
ghost use Rattle.asm_row.specs.Index.{AreListed, IsReadAt, NoneAmong};

use crate::listing::{Index, first_word, places_under};
use crate::reading::{Values, read_row};
use md_rows::{RawDescription, Row};

fn row_if_there(d: &RawDescription, place: u16) -> Option<&Row>
    ensures { MatchOption result (slice_get d.now.rows place ≡ None) (λ row. slice_get d.now.rows place ≡ Some row.now) }
{
    d.rows.as_slice().get(usize::from(place))
}

// What the text of a line says of the holes of the row at a place.
fn read_at<'a>(d: &RawDescription, place: u16, text: &'a [u8]) -> Option<Values<'a>>
    requires readable { IsReadable d.now }
    ensures { (ts : List Token) → IsLine text.now ts → IsReadAt d.now ts place (option_map (λ values. values_of values.items) result) }
{
    match row_if_there(d, place) {
        Some(row) => read_row(d, row, text),
        None => None,
    }
}

// The first of the rows at these places of which a text is a line.
fn find_among<'a>(d: &RawDescription, places: &[u16], text: &'a [u8]) -> Option<(u16, Values<'a>)>
    requires readable { IsReadable d.now }
    ensures { (ts : List Token) → IsLine text.now ts → MatchOption result (NoneAmong d.now ts places.now) (λ r. IsFound d.now ts r.0 (values_of r.1.items)) }
{
    match places {
        [] => None,
        [place, rest @ ..] => match read_at(d, *place, text) {
            Some(values) => Some((*place, values)),
            None => find_among(d, rest, text),
        },
    }
}

/// The row of which a text is a line, among those that begin with the text's first name and those that begin with no name.
pub(crate) fn find_by<'a>(
    d: &RawDescription,
    index: &Index<'_>,
    text: &'a [u8],
) -> Option<(u16, Values<'a>)>
    requires readable { IsReadable d.now }
    requires listed { AreListed d.now (length d.now.rows) index.now }
    ensures { (ts : List Token) → IsLine text.now ts → MatchOption result (NoRow d.now ts) (λ r. IsFound d.now ts r.0 (values_of r.1.items)) }
{
    match find_among(d, places_under(index, first_word(text)), text) {
        Some(found) => Some(found),
        None => find_among(d, places_under(index, None), text),
    }
}

//! Places in a text.

ghost use Rattle.std.specs.Prelude.{◌≡◌, ◌+◌, ◌<◌, ◌≤◌, ◌^◌, length, fold};
ghost use Rattle.c_lexer.specs.Places.{place_behind};

use c_tree::At;

fn behind_byte(at: At, byte: u8) -> At
    requires line { at.line + 1 < 2 ^ 32 }
    requires column { at.column + 1 < 2 ^ 32 }
    ensures { result ≡ place_behind at byte }
{
    if byte == b'\n' {
        At {
            line: at.line + 1,
            column: 1,
        }
    } else {
        At {
            line: at.line,
            column: at.column + 1,
        }
    }
}

/// The place behind these bytes, of which the first stands at `at`.
pub(crate) fn behind(at: At, bytes: &[u8]) -> At
    requires line { at.line + length bytes.now < 2 ^ 32 }
    requires column { at.column + length bytes.now < 2 ^ 32 }
    requires first { (0 < at.column) }
    ensures exact { result ≡ fold place_behind at bytes.now }
    ensures line { result.line ≤ at.line + length bytes.now }
    ensures column { result.column ≤ at.column + length bytes.now }
    ensures some { 0 < result.column }
{
    let mut place = at;
    for byte in bytes {
        place = behind_byte(place, *byte);
    }
    place
}

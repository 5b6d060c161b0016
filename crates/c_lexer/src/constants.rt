//! Constants (C11 6.4.4).

ghost use Rattle.std.specs.Prelude.{◌≡◌, ◌≤◌, ◌<◌, ◌+◌, ◌*◌, [], ◌∷◌, length};
ghost use Rattle.std.specs.Option.{option_map};
ghost use Rattle.c_lexer.specs.Constants;
ghost use Rattle.c_lexer.specs.Constants.{digit_of, number_of, digits_only, unsuffixed, up_to_255, escape_value, signed_char};

use crate::bytes::ByteClass;
use c_tree::TokenKind;

/// What every number above it counts as.
const LARGEST: u64 = 1 << 32;

fn digit(byte: u8) -> u64
    ensures value { result ≡ digit_of byte }
    ensures small { result < 256 }
{
    let digit = if byte <= b'9' {
        byte.saturating_sub(b'0')
    } else if byte <= b'F' {
        byte.saturating_sub(b'A' - 10)
    } else {
        byte.saturating_sub(b'a' - 10)
    };
    u64::from(digit)
}

fn number(base: u64, digits: &[u8]) -> u64
    requires base { (0 < base) }
    requires small { base ≤ 16 }
    ensures { result ≡ number_of base digits.now }
{
    let mut value = 0;
    for byte in digits {
        value = (value * base + digit(*byte)).min(LARGEST);
    }
    value
}

fn constant_of_digits(
    class: ByteClass,
    base: u64,
    digits: &[u8],
    decimal: bool,
    unsigned: bool,
) -> Option<TokenKind>
    requires base { (0 < base) }
    requires small { base ≤ 16 }
    ensures { result ≡ digits_only class base digits.now decimal unsigned }
{
    if digits.is_empty() || !class.has_all(digits) {
        return None;
    }
    Some(TokenKind::Number {
        value: number(base, digits),
        decimal,
        unsigned,
    })
}

fn unsuffixed_constant(text: &[u8], unsigned: bool) -> Option<TokenKind>
    ensures { result ≡ unsuffixed text.now unsigned }
{
    match text {
        [b'0', b'x' | b'X', digits @ ..] => {
            constant_of_digits(ByteClass::Hexadecimal, 16, digits, false, unsigned)
        }
        [b'0', ..] => constant_of_digits(ByteClass::Octal, 8, text, false, unsigned),
        _ => constant_of_digits(ByteClass::Digit, 10, text, true, unsigned),
    }
}

/// The constant that a numeral spells.
pub(crate) fn constant(text: &[u8]) -> Option<TokenKind>
    ensures { result ≡ Constants.constant text.now }
{
    match text {
        [front @ .., b'u' | b'U'] => unsuffixed_constant(front, true),
        _ => unsuffixed_constant(text, false),
    }
}

fn simple_escape(byte: u8) -> Option<u8>
    ensures { result ≡ Constants.simple_escape byte }
{
    match byte {
        b'n' => Some(10),
        b't' => Some(9),
        b'r' => Some(13),
        b'a' => Some(7),
        b'b' => Some(8),
        b'f' => Some(12),
        b'v' => Some(11),
        b'\\' | b'\'' | b'"' | b'?' => Some(byte),
        _ => None,
    }
}

fn byte_of(number: u64) -> Option<u8>
    ensures { result ≡ up_to_255 number }
{
    if number <= 255 {
        Some(number as u8)
    } else {
        None
    }
}

fn octal_escape(digits: &[u8]) -> Option<u8>
    ensures { result ≡ Constants.octal_escape digits.now }
{
    if digits.len() <= 3 && ByteClass::Octal.has_all(digits) {
        byte_of(number(8, digits))
    } else {
        None
    }
}

fn hexadecimal_escape(digits: &[u8]) -> Option<u8>
    ensures { result ≡ Constants.hexadecimal_escape digits.now }
{
    if ByteClass::Hexadecimal.has_all(digits) {
        byte_of(number(16, digits))
    } else {
        None
    }
}

/// What the bytes behind a backslash stand for.
fn escape(bytes: &[u8]) -> Option<u8>
    ensures { result ≡ escape_value bytes.now }
{
    match bytes {
        [] => None,
        [byte] => one_byte_escape(*byte, bytes),
        [b'x', digits @ ..] => hexadecimal_escape(digits),
        _ => octal_escape(bytes),
    }
}

fn one_byte_escape(byte: u8, bytes: &[u8]) -> Option<u8>
    requires { bytes.now ≡ byte ∷ [] }
    ensures { result ≡ escape_value bytes.now }
{
    if ByteClass::Octal.has(byte) {
        octal_escape(bytes)
    } else {
        simple_escape(byte)
    }
}

/// What the bytes between the quotes of a character constant stand for.
fn character_value(content: &[u8]) -> Option<u8>
    ensures { result ≡ Constants.character_value content.now }
{
    match content {
        [] => None,
        [b'\'' | b'\\'] => None,
        [byte @ 32..=126] => Some(*byte),
        [b'\\', escaped @ ..] => escape(escaped),
        _ => None,
    }
}

/// The value of a character constant, given the bytes between its quotes.
pub(crate) fn character(content: &[u8]) -> Option<i32>
    ensures { result ≡ option_map signed_char (Constants.character_value content.now) }
{
    let byte = character_value(content)?;
    if byte < 128 {
        Some(i32::from(byte))
    } else {
        Some(i32::from(byte) - 256)
    }
}

//! A token, and the longest one with which a text begins.

ghost use Rattle.std.specs.Prelude.{◌≡◌, ◌<◌, ◌^◌, ◌++◌, take, IfSome, IfNone, OnOk, OnErr};
ghost use Rattle.std.specs.List.{prefix_len};
ghost use Rattle.std.specs.Str.Parse.{digits_value};
ghost use Rattle.std.specs.Vec.{VecUnchanged};
ghost use Rattle.asm_token.specs.Tokens.{is_name_start, is_name_byte, is_mark, spelling, BeginsNoToken, LongestToken};
ghost use Rattle.asm_token.specs.Length.{LeadingMagnitude, digit_count, magnitude_length};
ghost use Rattle.asm_token.specs.Seen.{token_of};

use itoa::Buffer;
use std::alloc::AllocError;

/// A token of an assembly line: a name (a letter, `_`, `$` or `.`, then these or digits), a
/// decimal number of at most ten digits, or one of the bytes `# ( ) , + @ :`.
#[derive(Clone, Copy, Debug, PartialEq, Eq)]
pub enum Token<'a> {
    Name(&'a [u8]),
    Number(i64),
    Mark(u8),
}

/// The greatest number of digits of a number token.
const MAX_DIGITS: usize = 10;

fn is_name_start(byte: u8) -> bool
    ensures { result ≡ is_name_start byte }
{
    byte.is_ascii_alphabetic() || matches!(byte, b'_' | b'$' | b'.')
}

fn is_name_byte(byte: u8) -> bool
    ensures { result ≡ is_name_byte byte }
{
    is_name_start(byte) || byte.is_ascii_digit()
}

fn is_mark(byte: u8) -> bool
    ensures { result ≡ is_mark byte }
{
    matches!(byte, b'#' | b'(' | b')' | b',' | b'+' | b'@' | b':')
}

fn name_length(text: &[u8]) -> usize
    ensures { result ≡ prefix_len is_name_byte text.now }
{
    text.iter().take_while(|byte| is_name_byte(**byte)).count()
}

/// The number that the leading digits spell, ten of them at most, and how many they are.
fn leading_digits(text: &[u8]) -> (u64, usize)
    ensures length_is { result.1 ≡ digit_count text.now }
    ensures value_is { result.0 ≡ digits_value 10 (take result.1 text.now) }
    ensures small { result.0 < 10 ^ 10 }
{
    let mut value = 0;
    let mut length = 0;
    while length < MAX_DIGITS && length < text.len() && text[length].is_ascii_digit() {
        value = value * 10 + u64::from(text[length] - b'0');
        length += 1;
    }
    (value, length)
}

/// The number above 0 with which the text begins, and how many digits it has.
fn magnitude_at(text: &[u8]) -> Option<(i64, usize)>
    ensures found { IfSome result (λ found. LeadingMagnitude text.now found.0 found.1) }
    ensures none { IfNone result (magnitude_length text.now ≡ 0) }
{
    match text.first() {
        Some(b'1'..=b'9') => {
            let (value, length) = leading_digits(text);
            Some((value as i64, length))
        }
        _ => None,
    }
}

/// The longest token with which the text begins, and how many bytes it has: `00` begins with the
/// number 0, and eleven digits begin with a number of ten. A `-` belongs to a number only where
/// a digit from 1 to 9 follows it.
pub fn token_at(text: &[u8]) -> Option<(Token<'_>, usize)>
    ensures found { IfSome result (λ found. LongestToken text.now (token_of found.0) found.1) }
    ensures none { IfNone result (BeginsNoToken text.now) }
{
    let first = *text.first()?;
    if is_name_start(first) {
        let length = name_length(text);
        Some((Token::Name(&text[..length]), length))
    } else if is_mark(first) {
        Some((Token::Mark(first), 1))
    } else if first == b'0' {
        Some((Token::Number(0), 1))
    } else if first == b'-' {
        let (magnitude, length) = magnitude_at(&text[1..])?;
        Some((Token::Number(-magnitude), length + 1))
    } else {
        let (magnitude, length) = magnitude_at(text)?;
        Some((Token::Number(magnitude), length))
    }
}

/// Appends the bytes that spell the token. Where memory ends, the bytes stay as they were.
pub fn push_token(out: &mut Vec<u8>, token: Token<'_>) -> Result<(), AllocError>
    ensures ok { OnOk result (out.new.items ≡ out.old.items ++ spelling (token_of token.entry)) }
    ensures err { OnErr result (VecUnchanged out.old out.new) }
{
    match token {
        Token::Name(name) => out.extend_from_slice(name),
        Token::Number(number) => {
            let mut buffer = Buffer::new();
            out.extend_from_slice(buffer.format(number).as_bytes())
        }
        Token::Mark(mark) => Ok(out.push(mark)?),
    }
}

//! A token, and the longest one with which a text begins.

ghost use Rattle.std.specs.Prelude.{length, ◌≡◌, ◌≤◌, ◌<◌, ◌∷◌, ◌++◌, [], drop, false, IfSome, IfNone};
ghost use Rattle.std.specs.Char.{is_ascii_digit};
ghost use Rattle.std.specs.List.{prefix_len};
ghost use Rattle.asm_token.specs.Tokens.{is_name_start, is_name_byte};
ghost use Rattle.rtl_spelling.specs.Tokens.{sign_bytes, BeginsNoToken};
ghost use Rattle.rtl_token.specs.Length.{is_mark, magnitude_length, mark_length, number_length, word_length, LongestToken};
ghost use Rattle.rtl_token.specs.Seen.{token_of};

use rtl_spelling::Sign;

/// A token of a text, words and numbers by their bytes.
#[derive(Clone, Copy, Debug, PartialEq, Eq)]
pub enum Token<'a> {
    Word(&'a [u8]),
    Number(&'a [u8]),
    Mark(Sign),
}

fn is_name_start(byte: u8) -> bool
    ensures { result ≡ is_name_start byte }
{
    byte.is_ascii_alphabetic() || matches!(byte, b'_' | b'$' | b'.')
}

fn is_name_byte(byte: u8) -> bool
    ensures { result ≡ is_name_byte byte }
{
    is_name_start(byte) || byte.is_ascii_digit()
}

fn run_of_name(text: &[u8]) -> usize
    ensures count { result ≡ prefix_len is_name_byte text.now }
    ensures within { result ≤ length text.now }
{
    text.iter().take_while(|byte| is_name_byte(**byte)).count()
}

fn run_of_digits(text: &[u8]) -> usize
    ensures count { result ≡ prefix_len is_ascii_digit text.now }
    ensures within { result ≤ length text.now }
{
    text.iter().take_while(|byte| byte.is_ascii_digit()).count()
}

// The bytes of the word with which the text begins, or 0.
fn word_length(text: &[u8]) -> usize
    ensures count { result ≡ word_length text.now }
    ensures within { result ≤ length text.now }
{
    match text {
        [first, ..] if is_name_start(*first) => run_of_name(text),
        _ => 0,
    }
}

// The bytes of the number above 0 with which the text begins, or 0.
fn magnitude_length(text: &[u8]) -> usize
    ensures count { result ≡ magnitude_length text.now }
    ensures within { result ≤ length text.now }
{
    match text {
        [b'1'..=b'9', ..] => run_of_digits(text),
        _ => 0,
    }
}

// The bytes of the number with which the text begins, or 0.
fn number_length(text: &[u8]) -> usize
    ensures count { result ≡ number_length text.now }
    ensures within { result ≤ length text.now }
{
    match text {
        [b'0', ..] => 1,
        [b'-', digits @ ..] => match magnitude_length(digits) {
            0 => 0,
            length => length + 1,
        },
        _ => magnitude_length(text),
    }
}

// The mark that one byte is, but for `-`.
fn one_byte_mark(byte: u8) -> Option<Sign>
    ensures found { IfSome result (λ sign. sign_bytes sign ≡ byte ∷ []) }
    ensures none { IfNone result (is_mark byte ≡ false) }
{
    match byte {
        b' ' => Some(Sign::Space),
        b'[' => Some(Sign::LeftBracket),
        b']' => Some(Sign::RightBracket),
        b'(' => Some(Sign::LeftParen),
        b')' => Some(Sign::RightParen),
        b';' => Some(Sign::Semicolon),
        b'=' => Some(Sign::Equals),
        b'+' => Some(Sign::Plus),
        b'*' => Some(Sign::Star),
        b'&' => Some(Sign::Ampersand),
        b'|' => Some(Sign::Bar),
        b'^' => Some(Sign::Caret),
        b'?' => Some(Sign::Question),
        b'<' => Some(Sign::Less),
        b'>' => Some(Sign::Greater),
        _ => None,
    }
}

// The longest mark with which the text begins.
fn mark_at(text: &[u8]) -> Option<(Sign, usize)>
    ensures spelled { IfSome result (λ found. text.now ≡ sign_bytes found.0 ++ drop found.1 text.now) }
    ensures bytes { IfSome result (λ found. length (sign_bytes found.0) ≡ found.1) }
    ensures longest { IfSome result (λ found. mark_length text.now ≡ found.1) }
    ensures some { IfSome result (λ found. 0 < found.1) }
    ensures none { IfNone result (mark_length text.now ≡ 0) }
{
    match text {
        [b'-', b'>', ..] => Some((Sign::Arrow, 2)),
        [b'-', ..] => Some((Sign::Minus, 1)),
        [first, ..] => match one_byte_mark(*first) {
            Some(sign) => Some((sign, 1)),
            None => None,
        },
        [] => None,
    }
}

/// The longest token with which the text begins, and how many bytes it has. A `-` belongs to a number only where a digit from 1 to 9
/// follows it, and to an arrow where `>` follows it.
pub(crate) fn token_at(text: &[u8]) -> Option<(Token<'_>, usize)>
    ensures found { IfSome result (λ found. LongestToken text.now (token_of found.0) found.1) }
    ensures within { IfSome result (λ found. found.1 ≤ length text.now) }
    ensures none { IfNone result (BeginsNoToken text.now) }
{
    let length = word_length(text);
    if length > 0 {
        return Some((Token::Word(&text[..length]), length));
    }
    let length = number_length(text);
    if length > 0 {
        return Some((Token::Number(&text[..length]), length));
    }
    match mark_at(text) {
        Some((sign, length)) => Some((Token::Mark(sign), length)),
        None => None,
    }
}

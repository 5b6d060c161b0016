//! The tokens of a line's text.

ghost use Rattle.std.specs.Prelude.{◌≡◌, ◌≤◌, ◌↔◌, IsTrue, length};
ghost use Rattle.std.specs.List.{prefix_len};
ghost use Rattle.asm_token.specs.Tokens.{is_blank_or_tab};
ghost use Rattle.asm_row.specs.Walk.{BeginsWithNoGap, IsNext, LineOf};

use asm_token::token::{Token, token_at};

/// What a text begins with, blanks and tabs aside.
#[derive(Clone, Copy, Debug, PartialEq, Eq)]
pub enum Next<'a> {
    End,
    Bad,
    /// A token, and the text behind it.
    Token(Token<'a>, &'a [u8]),
}

fn is_gap(byte: u8) -> bool
    ensures { result ≡ is_blank_or_tab byte }
{
    byte == b' ' || byte == b'\t'
}

fn gap_length(text: &[u8]) -> usize
    ensures length { result ≡ prefix_len is_blank_or_tab text.now }
    ensures within { result ≤ length text.now }
{
    text.iter().take_while(|byte| is_gap(**byte)).count()
}

fn first_token(text: &[u8]) -> Next<'_>
    requires { BeginsWithNoGap text.now }
    ensures { IsNext text.now result }
{
    match token_at(text) {
        Some((token, length)) => Next::Token(token, &text[length..]),
        None if text.is_empty() => Next::End,
        None => Next::Bad,
    }
}

/// The first token of a text.
pub fn next_token(text: &[u8]) -> Next<'_>
    ensures { IsNext text.now result }
{
    first_token(&text[gap_length(text)..])
}

/// Whether a text has tokens and blanks and tabs alone.
pub fn are_tokens(text: &[u8]) -> bool
    ensures { IsTrue result ↔ LineOf text.now }
{
    let (_, mut rest) = text.split_at(0);
    loop {
        match next_token(rest) {
            Next::End => return true,
            Next::Bad => return false,
            Next::Token(_, behind) => rest = behind,
        }
    }
}

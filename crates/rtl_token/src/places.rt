//! Where a fault lies.

ghost use Rattle.std.specs.Prelude.{◌≡◌, ◌-◌, ◌<◌, ◌^◌, ◌&&◌, length, nat_lt, suc, take};
ghost use Rattle.rtl_spelling.specs.Reading;
ghost use Rattle.rtl_spelling.specs.Tokens.{spelled, spelling};
ghost use Rattle.rtl_token.specs.Settling.{settles};
ghost use Rattle.rtl_token.specs.Seen.{context_of, token_of, tokens_of};

use crate::context::Context;
use crate::cursor::{head_of, is_sign, rest_of};
use crate::leaves::leaf_at;
use crate::token::Token;
use crate::trouble::Trouble;
use rtl_print::sign_bytes;
use rtl_spelling::Sign;

fn last_tokens<'t, 'a>(tokens: &'t [Token<'a>], count: usize) -> &'t [Token<'a>]
    ensures { tokens_of result.now ≡ Reading.last_tokens count (tokens_of tokens.now) }
{
    let (_, last) = tokens.split_at(tokens.len().saturating_sub(count));
    last
}

fn is_unknown(c: &Context<'_>, token: Token<'_>) -> bool
    ensures { result ≡ Reading.is_unknown (context_of c.now) (token_of token.entry) }
{
    match token {
        Token::Word(_) => leaf_at(c, token).is_none(),
        _ => false,
    }
}

// Whether a whole hole stands at the front that isn't open.
fn is_unknown_hole(c: &Context<'_>, tokens: &[Token<'_>]) -> bool
    ensures { result ≡ Reading.is_unknown_hole (context_of c.now) (tokens_of tokens.now) }
{
    let name = rest_of(tokens);
    is_sign(Sign::Less, head_of(tokens))
        && is_unknown(c, head_of(name))
        && is_sign(Sign::Greater, head_of(rest_of(name)))
}

// Whether the token before the last ones, `left` of them, begins such a hole.
fn is_name_of_unknown(c: &Context<'_>, tokens: &[Token<'_>], left: usize) -> bool
    ensures { result ≡ (nat_lt left (length tokens.now)
        && Reading.is_unknown_hole (context_of c.now) (Reading.last_tokens (suc left) (tokens_of tokens.now))) }
{
    left < tokens.len() && is_unknown_hole(c, last_tokens(tokens, left + 1))
}

/// The trouble, told at the front of the hole where it is the name of a whole hole that isn't open, or its depth.
pub fn settled(c: &Context<'_>, tokens: &[Token<'_>], trouble: Trouble) -> Trouble
    ensures { result ≡ settles (context_of c.now) (tokens_of tokens.now) trouble }
{
    match trouble {
        Trouble::NoMemory => Trouble::NoMemory,
        Trouble::Wrong(left) => {
            if is_name_of_unknown(c, tokens, left) {
                Trouble::Wrong(left + 1)
            } else {
                Trouble::Wrong(left)
            }
        }
        Trouble::Deep(left) => {
            if is_unknown_hole(c, last_tokens(tokens, left)) {
                Trouble::Wrong(left)
            } else {
                Trouble::Deep(left)
            }
        }
    }
}

fn token_length(token: Token<'_>) -> usize
    ensures { result ≡ length (spelling (token_of token.entry)) }
{
    match token {
        Token::Word(bytes) | Token::Number(bytes) => bytes.len(),
        Token::Mark(sign) => sign_bytes(sign).len(),
    }
}

/// How many bytes stand before the last tokens, `left` of them.
pub fn place(tokens: &[Token<'_>], left: usize) -> usize
    requires { length (spelled (tokens_of tokens.now)) < 2 ^ 64 }
    ensures { result ≡ length (spelled (tokens_of (take (length tokens.now - left) tokens.now))) }
{
    let (front, _) = tokens.split_at(tokens.len().saturating_sub(left));
    let mut place = 0;
    for token in front {
        place += token_length(*token);
    }
    place
}

//! Tokens one by one.

ghost use Rattle.std.specs.Prelude.{length, ◌≡◌};
ghost use Rattle.rtl_spelling.specs.Reading;
ghost use Rattle.rtl_token.specs.Gives.{Gives};
ghost use Rattle.rtl_token.specs.Seen.{token_of, tokens_of};

use crate::senses::cell_at;
use crate::token::Token;
use crate::trouble::Trouble;
use rtl_spelling::{Bank, Sign};
use rtl_tree::Cell;

/// The first token; past the end one that says nothing.
pub fn head_of<'a>(tokens: &[Token<'a>]) -> Token<'a>
    ensures { token_of result ≡ Reading.head_of (tokens_of tokens.now) }
{
    match tokens.first() {
        Some(token) => *token,
        None => Token::Number(b""),
    }
}

/// The tokens behind the first.
pub fn rest_of<'t, 'a>(tokens: &'t [Token<'a>]) -> &'t [Token<'a>]
    ensures { tokens_of result.now ≡ Reading.rest_of (tokens_of tokens.now) }
{
    match tokens {
        [] => tokens,
        [_, rest @ ..] => rest,
    }
}

pub fn wrong(tokens: &[Token<'_>]) -> Trouble
    ensures { result ≡ Trouble.Wrong (length (tokens_of tokens.now)) }
{
    Trouble::Wrong(tokens.len())
}

pub fn is_sign(sign: Sign, token: Token<'_>) -> bool
    ensures { result ≡ Reading.is_sign sign (token_of token.entry) }
{
    match token {
        Token::Mark(mark) => mark == sign,
        _ => false,
    }
}

/// The tokens behind a mark, which stands first.
pub fn expect<'t, 'a>(sign: Sign, tokens: &'t [Token<'a>]) -> Result<&'t [Token<'a>], Trouble>
    ensures { Gives (λ rest. (tt, tokens_of rest.now)) result (Reading.expect sign (tokens_of tokens.now)) }
{
    if is_sign(sign, head_of(tokens)) {
        Ok(rest_of(tokens))
    } else {
        Err(wrong(tokens))
    }
}

/// The cell of a bank with the index that stands in brackets.
pub fn index<'t, 'a>(
    bank: Bank,
    tokens: &'t [Token<'a>],
) -> Result<(Cell, &'t [Token<'a>]), Trouble>
    ensures { Gives (λ x. (x.0, tokens_of x.1.now)) result (Reading.index bank (tokens_of tokens.now)) }
{
    let tokens = expect(Sign::LeftBracket, tokens)?;
    let Some(cell) = cell_at(bank, head_of(tokens)) else {
        return Err(wrong(tokens));
    };
    let tokens = expect(Sign::RightBracket, rest_of(tokens))?;
    Ok((cell, tokens))
}

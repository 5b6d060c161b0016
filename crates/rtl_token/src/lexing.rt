//! The tokens of a text.

ghost use Rattle.std.specs.Prelude.{IfErr, IfOk};
ghost use Rattle.rtl_spelling.specs.Tokens.{Lexes};
ghost use Rattle.rtl_token.specs.Seen.{tokens_of};
ghost use Rattle.rtl_token.specs.Refusals.{RefusesTokens};

use crate::fault::TextFault;
use crate::token::{Token, token_at};
use rtl_spelling::Sign;
use std::alloc::Global;

/// The tokens of a whole text, of which the last is the end.
pub fn lex(alloc: Global, text: &[u8]) -> Result<Vec<Token<'_>>, TextFault>
    ensures lexes { IfOk result (λ tokens. Lexes text.now (tokens_of tokens.items)) }
    ensures stuck { IfErr result (RefusesTokens text.now) }
{
    let mut tokens = Vec::new(alloc);
    let mut rest = text;
    let mut at = 0;
    while !rest.is_empty() {
        let Some((token, length)) = token_at(rest) else {
            return Err(TextFault::BadToken(at));
        };
        tokens.push(token)?;
        at += length;
        let (_, behind) = rest.split_at(length);
        rest = behind;
    }
    tokens.push(Token::Mark(Sign::End))?;
    Ok(tokens)
}

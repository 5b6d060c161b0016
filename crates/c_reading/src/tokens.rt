//! Steps over the tokens that are left. `nesting` is how deep the next one stands.

ghost use Rattle.std.specs.Prelude.{◌≡◌, ◌≤◌, length, IfOk};
ghost use Rattle.c_grammar.specs.Words.{lexemes};
ghost use Rattle.c_reading.specs.Parsers as spec;
ghost use Rattle.c_reading.specs.Ahead.{Passes, ReadsAt, shallow};
ghost use Rattle.c_reading.specs.declared.fault.Fault.TheVariants as fault;

use crate::fault::Fault;
use c_grammar::{Sign, sign_of};
use c_tree::syntax::Identifier;
use c_tree::{At, Token, TokenKind};
use sqlite_items::Items;
use std::alloc::Global;

/// How deep a token may stand.
const DEEPEST: u32 = 200;

#[tactic(auto, unfolding(crate::specs::Parsers::sign_at))]
pub fn peek(tokens: &[Token]) -> Sign
    ensures { result ≡ spec.sign_at (lexemes tokens.now) }
{
    match tokens {
        [] => Sign::End,
        [token, ..] => sign_of(&token.kind),
    }
}

#[tactic(auto, unfolding(crate::specs::Parsers::place_at))]
pub fn place(tokens: &[Token]) -> At
    ensures { result ≡ spec.place_at (lexemes tokens.now) }
{
    match tokens {
        [] => At { line: 0, column: 0 },
        [token, ..] => token.at,
    }
}

/// The fault of the next token, which continues no program.
pub fn wrong(tokens: &[Token]) -> Fault
    ensures { result ≡ fault.Wrong (length (lexemes tokens.now)) }
{
    Fault::Wrong(tokens.len())
}

/// Takes a token.
#[tactic(auto, unfolding(crate::specs::Parsers::eat))]
pub fn eat(nesting: u32, tokens: &[Token]) -> Result<&[Token], Fault>
    ensures reads { Passes nesting (spec.eat shallow nesting (lexemes tokens.now)) result }
    ensures few { IfOk result (λ _. nesting ≤ 200) }
{
    match tokens {
        [] => Err(Fault::Wrong(0)),
        [_, rest @ ..] => {
            if nesting > DEEPEST {
                return Err(Fault::Deep(tokens.len()));
            }
            Ok(rest)
        }
    }
}

#[tactic(auto, unfolding(crate::specs::Parsers::expect))]
pub fn expect(sign: Sign, nesting: u32, tokens: &[Token]) -> Result<&[Token], Fault>
    ensures reads { Passes nesting (spec.expect shallow sign nesting (lexemes tokens.now)) result }
    ensures few { IfOk result (λ _. nesting ≤ 200) }
{
    if peek(tokens) == sign {
        eat(nesting, tokens)
    } else {
        Err(wrong(tokens))
    }
}

#[tactic(auto, unfolding(crate::specs::Parsers::name, crate::specs::Parsers::word_at, crate::specs::Parsers::place_at))]
pub fn name(alloc: Global, nesting: u32, tokens: &[Token]) -> Result<(Identifier, &[Token]), Fault>
    ensures reads { ReadsAt nesting (spec.name shallow nesting (lexemes tokens.now)) result }
    ensures few { IfOk result (λ _. nesting ≤ 200) }
{
    match tokens {
        [
            Token {
                kind: TokenKind::Name(name),
                at,
            },
            ..
        ] => {
            let rest = eat(nesting, tokens)?;
            let bytes = Items::from_slice(alloc, name.as_slice())?;
            Ok((Identifier { at: *at, bytes }, rest))
        }
        _ => Err(wrong(tokens)),
    }
}

#[tactic(auto, unfolding(crate::specs::Parsers::name_if_any, crate::specs::Parsers::word_at, crate::specs::Parsers::place_at))]
pub fn name_if_any(
    alloc: Global,
    nesting: u32,
    tokens: &[Token],
) -> Result<(Option<Identifier>, &[Token]), Fault>
    ensures { ReadsAt nesting (spec.name_if_any shallow nesting (lexemes tokens.now)) result }
{
    match tokens {
        [
            Token {
                kind: TokenKind::Name(name),
                at,
            },
            ..
        ] => {
            let rest = eat(nesting, tokens)?;
            let bytes = Items::from_slice(alloc, name.as_slice())?;
            Ok((Some(Identifier { at: *at, bytes }), rest))
        }
        _ => Ok((None, tokens)),
    }
}

/// Whether a comma stands behind an item of a list, and not the list's end.
#[tactic(auto, unfolding(crate::specs::Parsers::more))]
pub fn more(close: Sign, nesting: u32, tokens: &[Token]) -> Result<(bool, &[Token]), Fault>
    ensures reads { ReadsAt nesting (spec.more shallow close nesting (lexemes tokens.now)) result }
    ensures few { IfOk result (λ _. nesting ≤ 200) }
{
    let next = peek(tokens);
    if next == Sign::Comma {
        Ok((true, eat(nesting, tokens)?))
    } else if next == close {
        Ok((false, eat(nesting, tokens)?))
    } else {
        Err(wrong(tokens))
    }
}

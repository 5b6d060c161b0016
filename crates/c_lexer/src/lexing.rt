//! All pieces of a text in turn.

ghost use Rattle.std.specs.Prelude.{◌≡◌, ◌+◌, ◌<◌, ◌≤◌, ◌^◌, ◌++◌, OnOk, IfOk, IfErr, length};
ghost use Rattle.c_lexer.specs.Lexing.{token_at, AreTokens};
ghost use Rattle.c_lexer.specs.Gives.{IsFirstFault};
ghost use Rattle.c_lexer.specs.Outcome.{Refuses, reason_of, rule_number};

use crate::line::{Line, next_piece};
use crate::place::behind;
use crate::rule::{Fault, Rule};
use c_tree::{At, CFault, Token, TokenKind};
use std::alloc::{AllocError, Global};
use vp_io::Reason;

fn push_token(tokens: &mut Vec<Token>, at: At, kind: Option<TokenKind>) -> Result<(), AllocError>
    ensures { OnOk result (tokens.new.items ≡ tokens.old.items ++ token_at at kind) }
{
    if let Some(kind) = kind {
        tokens.push(Token { kind, at })?;
    }
    Ok(())
}

fn tokens_of(alloc: Global, text: &[u8]) -> Result<Vec<Token>, Fault>
    requires { length text.now ≤ 4294967294 }
    ensures found { IfOk result (λ v. AreTokens text.now v.items) }
    ensures broken { IfErr result (IsFirstFault text.now) }
{
    let mut tokens = Vec::new(alloc);
    let mut rest = text;
    let mut line = Line::Fresh;
    let mut at = At { line: 1, column: 1 };
    while !rest.is_empty() {
        let (kind, length) = next_piece(alloc, line, at, rest)?;
        let (bytes, after) = rest.split_at(length);
        line = line.behind(at, bytes[0], &kind);
        push_token(&mut tokens, at, kind)?;
        at = behind(at, bytes);
        rest = after;
    }
    push_token(&mut tokens, at, Some(TokenKind::End))?;
    Ok(tokens)
}

/// The number that is printed for a rule.
fn number(rule: Rule) -> u8
    ensures { result ≡ rule_number rule }
{
    match rule {
        Rule::Unknown => 1,
        Rule::Misspelt => 2,
        Rule::OpenComment => 3,
        Rule::LongName => 4,
    }
}

fn reason(at: At, rule: Rule) -> Reason
    ensures { result ≡ reason_of at rule }
{
    Reason {
        line: at.line,
        column: at.column,
        rule: number(rule),
        detail: 0,
    }
}

/// The tokens of a source (C11 6.4), of which the last is the end. A source that breaks a rule is
/// refused at the first byte of what breaks the first one.
pub fn lex(alloc: Global, text: &[u8]) -> Result<Vec<Token>, CFault>
    requires { length text.now ≤ 4294967294 }
    ensures found { IfOk result (λ tokens. AreTokens text.now tokens.items) }
    ensures refused { IfErr result (Refuses text.now) }
{
    match tokens_of(alloc, text) {
        Ok(tokens) => Ok(tokens),
        Err(Fault::NoMemory) => Err(CFault::NoMemory),
        Err(Fault::Breaks(at, rule)) => Err(CFault::Bad(reason(at, rule))),
    }
}

//! What a line of a text says.

ghost use Rattle.std.specs.Prelude.{◌≡◌, ◌≢◌, [], ◌∷◌, IsTrue, List, MatchOption, false};
ghost use Rattle.asm_token.specs.Tokens.{Token as SpecToken, Name as NameToken, Mark as MarkToken, Number as NumberToken};
ghost use Rattle.asm_token.specs.Seen.{token_of};
ghost use Rattle.asm_row.specs.Walk.{IsLine};
ghost use Rattle.asm_program.specs.TextLines.{IsLabel, Label as SpecLabel, SayTokens, SaysLabel, is_skipped, says_name, says_number};
ghost use Rattle.asm_labels.specs.Seen.{IsSaid, label_of, seen};

use asm_row::{Next, are_tokens, block_in, next_token, symbol_in};
use asm_token::token::Token;

/// A label. The name of an object or a function stands in the text.
#[derive(Clone, Copy, Debug, PartialEq, Eq)]
pub enum Label<'t> {
    Block(u32),
    Symbol(&'t [u8]),
}

/// What a line says.
#[derive(Clone, Copy, Debug, PartialEq, Eq)]
pub enum Said<'t> {
    /// It is skipped.
    Nothing,
    /// It is too long, or its bytes are no tokens.
    Unreadable,
    TextBegins,
    DataBegins,
    Labelled(Label<'t>),
    Mislabelled,
    Word(i64),
    Byte(i64),
    Space(i64),
    Others,
}

// Whether a line is blank, or a comment.
pub fn is_skipped(line: &[u8]) -> bool
    ensures { result ≡ is_skipped line.now }
{
    for byte in line {
        if *byte != b' ' && *byte != b'\t' {
            return *byte == b'*';
        }
    }
    true
}

fn label_in(name: &[u8]) -> Option<Label<'_>>
    ensures { MatchOption result ((l : SpecLabel) → IsLabel name.now l → ⊥) (λ l. IsLabel name.now (label_of l)) }
{
    match symbol_in(name) {
        Some(symbol) => Some(Label::Symbol(symbol)),
        None => match block_in(name) {
            Some(block) => Some(Label::Block(block)),
            None => None,
        },
    }
}

fn by_name(name: &[u8]) -> Said<'_>
    ensures { seen result (NameToken name.now ∷ []) ≡ says_name name.now }
{
    if name == b".text".as_slice() {
        Said::TextBegins
    } else if name == b".data".as_slice() {
        Said::DataBegins
    } else {
        Said::Others
    }
}

fn by_number(name: &[u8], number: i64) -> Said<'static>
    ensures { seen result (NameToken name.now ∷ (NumberToken number ∷ [])) ≡ says_number name.now number }
{
    if name == b".word".as_slice() {
        Said::Word(number)
    } else if name == b".byte".as_slice() {
        Said::Byte(number)
    } else if name == b".space".as_slice() {
        Said::Space(number)
    } else {
        Said::Others
    }
}

fn by_label(name: &[u8]) -> Said<'_>
    ensures { (ts : List SpecToken) → SaysLabel name.now (seen result ts) }
{
    match label_in(name) {
        Some(label) => Said::Labelled(label),
        None => Said::Mislabelled,
    }
}

fn by_mark(name: &[u8], mark: u8) -> Said<'_>
    ensures { SayTokens (NameToken name.now ∷ (MarkToken mark ∷ [])) (seen result (NameToken name.now ∷ (MarkToken mark ∷ []))) }
{
    if mark == b':' {
        by_label(name)
    } else {
        Said::Others
    }
}

// What a name and one token behind it say.
fn by_two<'t>(name: &'t [u8], token: Token<'t>) -> Said<'t>
    ensures { SayTokens (NameToken name.now ∷ (token_of token.entry ∷ [])) (seen result (NameToken name.now ∷ (token_of token.entry ∷ []))) }
{
    match token {
        Token::Number(number) => by_number(name, number),
        Token::Mark(mark) => by_mark(name, mark),
        Token::Name(_) => Said::Others,
    }
}

fn is_end(text: &[u8]) -> bool
    ensures end { IsTrue result → (ts : List SpecToken) → IsLine text.now ts → ts ≡ [] }
    ensures more { result ≡ false → (ts : List SpecToken) → IsLine text.now ts → ts ≢ [] }
{
    matches!(next_token(text), Next::End)
}

// What a name and the tokens behind it say.
fn behind_name<'t>(name: &'t [u8], behind: &'t [u8]) -> Said<'t>
    ensures { (ts : List SpecToken) → IsLine behind.now ts → SayTokens (NameToken name.now ∷ ts) (seen result (NameToken name.now ∷ ts)) }
{
    match next_token(behind) {
        Next::End => by_name(name),
        Next::Bad => Said::Others,
        Next::Token(token, rest) => {
            if is_end(rest) {
                by_two(name, token)
            } else {
                Said::Others
            }
        }
    }
}

fn by_tokens(line: &[u8]) -> Said<'_>
    ensures { (ts : List SpecToken) → IsLine line.now ts → SayTokens ts (seen result ts) }
{
    match next_token(line) {
        Next::Token(Token::Name(name), behind) => behind_name(name, behind),
        _ => Said::Others,
    }
}

/// What a line says.
pub fn said_on(line: &[u8]) -> Said<'_>
    ensures { IsSaid line.now result }
{
    if line.len() > 640 {
        return Said::Unreadable;
    }
    if is_skipped(line) {
        return Said::Nothing;
    }
    if !are_tokens(line) {
        return Said::Unreadable;
    }
    by_tokens(line)
}

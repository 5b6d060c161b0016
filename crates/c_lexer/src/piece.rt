//! The piece at the front of a text: a blank, a comment or a token.

ghost use Rattle.std.specs.Prelude.{◌≡◌, ◌+◌, ◌<◌, ◌^◌, ◌≤◌, not, true, take, drop, length, option_copied, slice_index, IfOk, IfSome};
ghost use Rattle.std.specs.List.{prefix_len};
ghost use Rattle.c_lexer.specs.Bytes.{is_in, first};
ghost use Rattle.c_lexer.specs.Pieces;
ghost use Rattle.c_lexer.specs.Pieces.{content_len, token, close_at, is_line_feed, behind, blanks, header_len, include_or_not, run};
ghost use Rattle.c_lexer.specs.Gives.{Finds, LiesIn};
ghost use Rattle.c_tree.specs.declared.token.TokenKind.TheVariants.{Mark};

use crate::bytes::ByteClass;
use crate::constants::{character, constant};
use crate::rule::{Rule, Trouble};
use crate::words::{is_keyword, is_mark};
use c_tree::TokenKind;
use sqlite_items::Items;
use std::alloc::Global;

/// The token of a front, or none for a blank or a comment, and the front's length.
type Found = Result<(Option<TokenKind>, usize), Trouble>;

const LONGEST_NAME: usize = 63;

#[tactic(auto, unfolding(crate::specs::Pieces::word))]
fn word(alloc: Global, bytes: &[u8]) -> Found
    ensures exact { Finds result (Pieces.word bytes.now) }
    ensures whole { IfOk result (λ x. x.1 ≡ length bytes.now) }
{
    if bytes.len() > LONGEST_NAME {
        return Err(Trouble::Breaks(Rule::LongName));
    }
    let copy = Items::from_slice(alloc, bytes)?;
    if is_keyword(bytes) {
        Ok((Some(TokenKind::Keyword(copy)), bytes.len()))
    } else {
        Ok((Some(TokenKind::Name(copy)), bytes.len()))
    }
}

#[tactic(auto, unfolding(crate::specs::Pieces::numeral))]
fn numeral(bytes: &[u8]) -> Found
    ensures exact { Finds result (Pieces.numeral bytes.now) }
    ensures whole { IfOk result (λ x. x.1 ≡ length bytes.now) }
{
    match constant(bytes) {
        None => Err(Trouble::Breaks(Rule::Misspelt)),
        Some(kind) => Ok((Some(kind), bytes.len())),
    }
}

/// How many bytes should stand between the quotes of a character constant.
fn content_length(bytes: &[u8]) -> usize
    requires { length bytes.now < 2 ^ 33 }
    ensures { result ≡ content_len bytes.now }
{
    match bytes {
        [] => 0,
        [b'\\'] => 2,
        [b'\\', _, more @ ..] => 2 + ByteClass::Hexadecimal.run_len(more),
        _ => 1,
    }
}

/// The byte at a place, or 0 past the end.
fn byte_at(bytes: &[u8], place: usize) -> u8
    ensures { result ≡ slice_index bytes.now place }
{
    bytes.get(place).copied().unwrap_or(0)
}

/// A character constant, given what stands behind its first quote.
#[tactic(auto, unfolding(crate::specs::Pieces::character))]
fn character_constant(bytes: &[u8]) -> Found
    requires { length bytes.now < 2 ^ 33 }
    ensures exact { Finds result (Pieces.character bytes.now) }
    ensures some { IfOk result (λ x. 0 < x.1) }
    ensures within { IfOk result (λ x. x.1 < length bytes.now + 2) }
{
    let length = content_length(bytes);
    if byte_at(bytes, length) != b'\'' {
        return Err(Trouble::Breaks(Rule::Misspelt));
    }
    match character(&bytes[..length]) {
        None => Err(Trouble::Breaks(Rule::Misspelt)),
        Some(value) => Ok((Some(TokenKind::Character(value)), length + 2)),
    }
}

/// The first bytes, at most so many.
fn front(bytes: &[u8], count: usize) -> &[u8]
    ensures exact { result.now ≡ take count bytes.now }
    ensures within { length result.now ≤ length bytes.now }
    ensures some { 0 < count → 0 < length bytes.now → 0 < length result.now }
{
    if count < bytes.len() {
        &bytes[..count]
    } else {
        bytes
    }
}

fn mark_token(alloc: Global, bytes: &[u8]) -> Found
    ensures exact { Finds result (token (Mark bytes.now) (length bytes.now)) }
    ensures whole { IfOk result (λ x. x.1 ≡ length bytes.now) }
{
    Ok((
        Some(TokenKind::Mark(Items::from_slice(alloc, bytes)?)),
        bytes.len(),
    ))
}

#[tactic(auto, unfolding(crate::specs::Pieces::mark))]
fn mark(alloc: Global, bytes: &[u8]) -> Found
    requires { 0 < length bytes.now }
    ensures exact { Finds result (Pieces.mark bytes.now) }
    ensures within { LiesIn bytes.now result }
{
    if is_mark(front(bytes, 3)) {
        return mark_token(alloc, front(bytes, 3));
    }
    if is_mark(front(bytes, 2)) {
        return mark_token(alloc, front(bytes, 2));
    }
    if is_mark(front(bytes, 1)) {
        return mark_token(alloc, front(bytes, 1));
    }
    Err(Trouble::Breaks(Rule::Unknown))
}

fn is_close(bytes: &[u8]) -> bool
    ensures exact { result ≡ Pieces.is_close bytes.now }
    ensures within { result ≡ true → 2 ≤ length bytes.now }
{
    match bytes {
        [b'*', b'/', ..] => true,
        _ => false,
    }
}

/// How many bytes stand before the first `*/`.
fn close_place(bytes: &[u8]) -> Option<usize>
    ensures exact { result ≡ close_at bytes.now }
    ensures within { IfSome result (λ n. n + 2 ≤ length bytes.now) }
{
    for place in 0..bytes.len() {
        if is_close(&bytes[place..]) {
            return Some(place);
        }
    }
    None
}

fn line_length(bytes: &[u8]) -> usize
    ensures exact { result ≡ prefix_len (λ b. not (is_line_feed b)) bytes.now }
    ensures within { result ≤ length bytes.now }
{
    bytes.iter().take_while(|b| **b != b'\n').count()
}

/// What begins with a slash: a comment of either kind, or a mark.
#[tactic(auto, unfolding(crate::specs::Pieces::slash))]
fn slash(alloc: Global, bytes: &[u8]) -> Found
    requires some { (0 < length bytes.now) }
    requires short { length bytes.now < 2 ^ 33 }
    ensures exact { Finds result (Pieces.slash bytes.now) }
    ensures within { LiesIn bytes.now result }
{
    match bytes {
        [_, b'/', comment @ ..] => Ok((None, 2 + line_length(comment))),
        [_, b'*', body @ ..] => match close_place(body) {
            None => Err(Trouble::Breaks(Rule::OpenComment)),
            Some(length) => Ok((None, length + 4)),
        },
        _ => mark(alloc, bytes),
    }
}

/// What stands behind these bytes, if the text begins with them.
fn text_behind<'a>(bytes: &[u8], text: &'a [u8]) -> Option<&'a [u8]>
    ensures exact { option_copied result ≡ behind bytes.now text.now }
    ensures within { IfSome result (λ t. length t.now + length bytes.now ≡ length text.now) }
{
    text.strip_prefix(bytes)
}

fn after_blanks(text: &[u8]) -> &[u8]
    ensures exact { result.now ≡ drop (blanks text.now) text.now }
    ensures within { length result.now + blanks text.now ≡ length text.now }
{
    &text[ByteClass::LineBlank.run_len(text)..]
}

/// The length of `#include <stdio.h>`, given the length up to a place and what stands behind it.
fn header_length(before: usize, text: &[u8]) -> Option<usize>
    requires { before + length text.now < 2 ^ 33 }
    ensures exact { result ≡ header_len before text.now }
    ensures within { IfSome result (λ n. n ≤ before + length text.now) }
{
    match text_behind(b"<stdio.h>", after_blanks(text)) {
        None => None,
        Some(_) => Some(before + ByteClass::LineBlank.run_len(text) + 9),
    }
}

/// The length of `#include <stdio.h>`, given what stands behind `#`.
#[tactic(auto, unfolding(crate::specs::Pieces::include_len))]
fn include_length(bytes: &[u8]) -> Option<usize>
    requires { length bytes.now < 2 ^ 32 }
    ensures exact { result ≡ Pieces.include_len bytes.now }
    ensures within { IfSome result (λ n. n ≤ 1 + length bytes.now) }
    ensures some { IfSome result (λ n. 0 < n) }
{
    let blanks = ByteClass::LineBlank.run_len(bytes);
    match text_behind(b"include", after_blanks(bytes)) {
        None => None,
        Some(text) => header_length(blanks + 8, text),
    }
}

fn include(bytes: &[u8]) -> Found
    requires { length bytes.now < 2 ^ 32 }
    ensures exact { Finds result (include_or_not (Pieces.include_len bytes.now)) }
    ensures within { IfOk result (λ x. x.1 ≤ 1 + length bytes.now) }
    ensures some { IfOk result (λ x. 0 < x.1) }
{
    match include_length(bytes) {
        None => Err(Trouble::Breaks(Rule::Unknown)),
        Some(length) => Ok((Some(TokenKind::Include), length)),
    }
}

fn run_of(class: ByteClass, text: &[u8]) -> &[u8]
    ensures exact { result.now ≡ run (is_in class) text.now }
    ensures within { length result.now ≤ length text.now }
    ensures some { is_in class (first text.now) ≡ true → 0 < length result.now }
{
    &text[..class.run_len(text)]
}

/// The piece at the front of a text. `fresh` tells that no token stands before it on its line.
#[tactic(auto, unfolding(crate::specs::Pieces::piece_at))]
pub(crate) fn piece_at(alloc: Global, fresh: bool, text: &[u8]) -> Found
    requires some { (0 < length text.now) }
    requires short { length text.now < 2 ^ 32 }
    ensures exact { Finds result (Pieces.piece_at fresh text.now) }
    ensures within { LiesIn text.now result }
{
    let first = text[0];
    if ByteClass::Blank.has(first) {
        Ok((None, 1))
    } else if ByteClass::Letter.has(first) {
        word(alloc, run_of(ByteClass::NameByte, text))
    } else if ByteClass::Digit.has(first) {
        numeral(run_of(ByteClass::NumberByte, text))
    } else if first == b'\'' {
        character_constant(&text[1..])
    } else if first == b'/' {
        slash(alloc, text)
    } else if first == b'#' && fresh {
        include(&text[1..])
    } else {
        mark(alloc, text)
    }
}

//! The holes in a text.

ghost use Rattle.std.specs.Prelude.{◌≡◌, ◌↔◌, ◌<◌, ◌≤◌, ◌∷◌, ◌++◌, option_map, option_to_list, OnOk, IfOk, IfSome, IfNone, IsTrue, length};
ghost use Rattle.rtl_spelling.specs.Tokens.{Word, Mark};
ghost use Rattle.rtl_text.specs.Seen.{token_of, tokens_of};
ghost use Rattle.md_text.specs.Forms.{hole_names, open_from};
ghost use Rattle.md_open.specs.Fronts.{BeginsNoHole};

use rtl_text::{OpenHole, Sign, Token};
use rtl_tree::{Cell, Expr};
use sqlite_items::Items;
use std::alloc::{AllocError, Global};

fn is_less(token: Token<'_>) -> bool
    ensures { IsTrue result ↔ (token_of token.entry ≡ Mark Sign.Less) }
{
    match token {
        Token::Mark(sign) => sign == Sign::Less,
        Token::Word(_) => false,
        Token::Number(_) => false,
    }
}

/// The name of the hole with which the tokens begin, and the tokens behind the name.
fn hole_at<'t, 'a>(tokens: &'t [Token<'a>]) -> Option<(&'a [u8], &'t [Token<'a>])>
    ensures found { IfSome result (λ found. tokens_of tokens.now ≡ Mark Sign.Less ∷ Word found.0.now ∷ tokens_of found.1.now) }
    ensures none { IfNone result (BeginsNoHole (tokens_of tokens.now)) }
{
    match tokens {
        [first, Token::Word(name), rest @ ..] if is_less(*first) => Some((*name, rest)),
        _ => None,
    }
}

/// The name of a hole with which the tokens begin, and the tokens behind it; or those behind the first token.
fn next_name<'t, 'a>(tokens: &'t [Token<'a>]) -> (Option<&'a [u8]>, &'t [Token<'a>])
    requires { 0 < length tokens.now }
    ensures names { option_to_list (option_map (λ name. name.now) result.0) ++ hole_names (tokens_of result.1.now) ≡ hole_names (tokens_of tokens.now) }
    ensures shorter { length result.1.now < length tokens.now }
{
    match hole_at(tokens) {
        Some((name, behind)) => (Some(name), behind),
        None => (None, &tokens[1..]),
    }
}

fn push_name(
    alloc: Global,
    names: &mut Items<Items<u8>>,
    name: Option<&[u8]>,
) -> Result<(), AllocError>
    ensures { OnOk result (names.new ≡ names.old ++ option_to_list (option_map (λ n. n.now) name.entry)) }
{
    if let Some(name) = name {
        let name = Items::from_slice(alloc, name)?;
        names.push(name)?;
    }
    Ok(())
}

/// The names of the holes, as often as they stand there.
pub fn names_of_holes(alloc: Global, tokens: &[Token<'_>]) -> Result<Items<Items<u8>>, AllocError>
    ensures { IfOk result (λ names. names ≡ hole_names (tokens_of tokens.now)) }
{
    let mut names = Items::new(alloc);
    let (_, mut rest) = tokens.split_at(0);
    while !rest.is_empty() {
        let (name, behind) = next_name(rest);
        push_name(alloc, &mut names, name)?;
        rest = behind;
    }
    Ok(names)
}

/// Each name as a hole that becomes a register hole with the name's number.
pub fn open_holes(alloc: Global, names: &[Items<u8>]) -> Result<Vec<OpenHole>, AllocError>
    requires { length names.now ≤ 256 }
    ensures { IfOk result (λ holes. holes.items ≡ open_from 0 names.now) }
{
    let mut holes = Vec::new(alloc);
    for index in 0..names.len() {
        let name = Vec::from_slice(alloc, names[index].as_slice())?;
        holes.push(OpenHole {
            name,
            leaf: Expr::Cell(Cell::Hole(index as u8)),
        })?;
    }
    Ok(holes)
}

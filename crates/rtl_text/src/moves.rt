//! The reading of assignments.

ghost use Rattle.std.specs.Prelude.{◌≡◌, IfOk};
ghost use Rattle.std.specs.Option.{option_map};
ghost use Rattle.rtl_word.specs.Words.{IsWordSize};
ghost use Rattle.rtl_tree.specs.Trees.{tree_of};
ghost use Rattle.rtl_tree.specs.Moves.{goal_of};
ghost use Rattle.rtl_spelling.specs.Spelling.{goal_of_leaf};
ghost use Rattle.rtl_spelling.specs.Reading;
ghost use Rattle.rtl_token.specs.Gives.{Gives};
ghost use Rattle.rtl_text.specs.Seen.{context_of, said_by, tokens_of};

use crate::said::Assignment;
use crate::trees::{address, hole, tree};
use rtl_spelling::{Sense, Sign};
use rtl_token::{Context, Token, Trouble, expect, head_of, index, rest_of, sense_of, wrong};
use rtl_tree::{Expr, Place, Width};
use std::alloc::Global;

/// How many trees a value may have one in the other.
const VALUE_ROOM: u32 = 32;

/// How many trees an address may have one in the other, which stands in a place.
const ADDRESS_ROOM: u32 = 31;

// The place that a leaf can be.
fn place_of_leaf(leaf: Expr) -> Option<Place>
    ensures { option_map goal_of result ≡ goal_of_leaf (tree_of leaf) }
{
    match leaf {
        Expr::Cell(cell) => Some(Place::Cell(cell)),
        Expr::Mem(width, address) => Some(Place::Mem(width, Box::into_inner(address))),
        _ => None,
    }
}

fn memory<'t, 'a>(
    alloc: Global,
    c: &Context<'_>,
    width: Width,
    tokens: &'t [Token<'a>],
) -> Result<(Option<Place>, &'t [Token<'a>]), Trouble>
    requires { IsWordSize c.now.bits }
    ensures { Gives (λ x. (option_map goal_of x.0, tokens_of x.1.now)) result
        (Reading.place_on (context_of c.now) (Reading.tree (context_of c.now) 31) (tokens_of tokens.now) (Sense.Memory width)) }
{
    let (address, tokens) = address(alloc, c, ADDRESS_ROOM, rest_of(tokens))?;
    Ok((Some(Place::Mem(width, address)), tokens))
}

fn place_at_sign<'t, 'a>(
    alloc: Global,
    c: &Context<'_>,
    tokens: &'t [Token<'a>],
    sign: Sign,
) -> Result<(Option<Place>, &'t [Token<'a>]), Trouble>
    ensures { Gives (λ x. (option_map goal_of x.0, tokens_of x.1.now)) result
        (Reading.place_on (context_of c.now) (Reading.tree (context_of c.now) 31) (tokens_of tokens.now) (Sense.Sign sign)) }
{
    match sign {
        Sign::Less => {
            let (leaf, tokens) = hole(alloc, c, tokens)?;
            Ok((place_of_leaf(leaf), tokens))
        }
        _ => Err(wrong(tokens)),
    }
}

fn place<'t, 'a>(
    alloc: Global,
    c: &Context<'_>,
    tokens: &'t [Token<'a>],
) -> Result<(Option<Place>, &'t [Token<'a>]), Trouble>
    requires { IsWordSize c.now.bits }
    ensures { Gives (λ x. (option_map goal_of x.0, tokens_of x.1.now)) result
        (Reading.place (context_of c.now) (Reading.tree (context_of c.now) 31) (tokens_of tokens.now)) }
{
    match sense_of(c, head_of(tokens)) {
        Sense::Cell(cell) => Ok((Some(Place::Cell(cell)), rest_of(tokens))),
        Sense::Bank(bank) => {
            let (cell, tokens) = index(bank, rest_of(tokens))?;
            Ok((Some(Place::Cell(cell)), tokens))
        }
        Sense::Memory(width) => memory(alloc, c, width, tokens),
        Sense::Sign(sign) => place_at_sign(alloc, c, tokens, sign),
        _ => Err(wrong(tokens)),
    }
}

// `lost`, or a tree.
fn value<'t, 'a>(
    alloc: Global,
    c: &Context<'_>,
    tokens: &'t [Token<'a>],
) -> Result<(Expr, &'t [Token<'a>]), Trouble>
    requires { IsWordSize c.now.bits }
    ensures { Gives (λ x. (tree_of x.0, tokens_of x.1.now)) result
        (Reading.value (context_of c.now) (Reading.tree (context_of c.now) 32) (tokens_of tokens.now)) }
{
    match sense_of(c, head_of(tokens)) {
        Sense::Lost => Ok((Expr::Lost, rest_of(tokens))),
        _ => tree(alloc, c, VALUE_ROOM, tokens),
    }
}

/// An assignment.
pub(crate) fn assignment<'t, 'a>(
    alloc: Global,
    c: &Context<'_>,
    tokens: &'t [Token<'a>],
) -> Result<(Assignment, &'t [Token<'a>]), Trouble>
    requires { IsWordSize c.now.bits }
    ensures { Gives (λ x. (said_by x.0, tokens_of x.1.now)) result (Reading.move (context_of c.now) 31 (tokens_of tokens.now)) }
{
    let (to, tokens) = place(alloc, c, tokens)?;
    let tokens = expect(Sign::Space, tokens)?;
    let tokens = expect(Sign::Equals, tokens)?;
    let tokens = expect(Sign::Space, tokens)?;
    let (value, tokens) = value(alloc, c, tokens)?;
    Ok((Assignment { to, value }, tokens))
}

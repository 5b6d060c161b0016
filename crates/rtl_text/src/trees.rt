//! The reading of trees.
//!
//! Each function reads from the front of `tokens` and gives the tokens behind what it read. `room` says how many trees may still
//! stand one in the other.

ghost use Rattle.std.specs.Prelude.{◌≡◌, ◌∷◌};
ghost use Rattle.rtl_word.specs.Words.{IsWordSize};
ghost use Rattle.rtl_tree.specs.Trees.{tree_of};
ghost use Rattle.rtl_spelling.specs.Reading;
ghost use Rattle.rtl_token.specs.Gives.{Fails, Gives};
ghost use Rattle.rtl_token.specs.Seen.{context_of, tokens_of};
ghost use Rattle.rtl_text.specs.Unary.{unary};

use rtl_spelling::{Bank, Sense, Sign};
use rtl_token::{
    Context, Token, Trouble, expect, head_of, index, is_sign, leaf_at, rest_of, sense_of, wrong,
};
use rtl_tree::{BinOp, Expr, UnOp, Width, copy};
use rtl_word::Rel;
use std::alloc::Global;

fn has_holes(c: &Context<'_>) -> bool
    ensures { result ≡ Reading.has_holes (context_of c.now).holes }
{
    !c.holes.is_empty()
}

/// A hole, whose `<` stands at the front.
pub(crate) fn hole<'t, 'a>(
    alloc: Global,
    c: &Context<'_>,
    tokens: &'t [Token<'a>],
) -> Result<(Expr, &'t [Token<'a>]), Trouble>
    ensures { Gives (λ x. (tree_of x.0, tokens_of x.1.now)) result (Reading.hole (context_of c.now) (tokens_of tokens.now)) }
{
    if !has_holes(c) {
        return Err(wrong(tokens));
    }
    let tokens = rest_of(tokens);
    let Some(leaf) = leaf_at(c, head_of(tokens)) else {
        return Err(wrong(tokens));
    };
    let tokens = expect(Sign::Greater, rest_of(tokens))?;
    let leaf = copy(alloc, leaf)?;
    Ok((leaf, tokens))
}

// A tree that would stand too deep: a token that begins no tree is wrong first.
fn too_deep(c: &Context<'_>, tokens: &[Token<'_>], sense: Sense) -> Trouble
    ensures { Fails result (Reading.too_deep (context_of c.now) (tokens_of tokens.now) sense) }
{
    match sense {
        Sense::Number(_)
        | Sense::Object(_)
        | Sense::Label(_)
        | Sense::Cell(_)
        | Sense::Bank(_)
        | Sense::Memory(_)
        | Sense::Sign(Sign::LeftParen) => Trouble::Deep(tokens.len()),
        Sense::Sign(Sign::Less) if has_holes(c) => Trouble::Deep(tokens.len()),
        _ => wrong(tokens),
    }
}

/// The address of a memory place or tree, in brackets.
#[cycle(reading)]
pub(crate) fn address<'t, 'a>(
    alloc: Global,
    c: &Context<'_>,
    room: u32,
    tokens: &'t [Token<'a>],
) -> Result<(Expr, &'t [Token<'a>]), Trouble>
    requires { IsWordSize c.now.bits }
    ensures { Gives (λ x. (tree_of x.0, tokens_of x.1.now)) result
        (Reading.address (Reading.tree (context_of c.now) room) (tokens_of tokens.now)) }
{
    let tokens = expect(Sign::LeftBracket, tokens)?;
    let (address, tokens) = tree(alloc, c, room, tokens)?;
    let tokens = expect(Sign::RightBracket, tokens)?;
    Ok((address, tokens))
}

// A tree in a box, which stands in another tree.
#[cycle(reading)]
fn boxed<'t, 'a>(
    alloc: Global,
    c: &Context<'_>,
    room: u32,
    tokens: &'t [Token<'a>],
) -> Result<(Box<Expr>, &'t [Token<'a>]), Trouble>
    requires { IsWordSize c.now.bits }
    ensures { Gives (λ x. (tree_of x.0.value, tokens_of x.1.now)) result (Reading.tree (context_of c.now) room (tokens_of tokens.now)) }
{
    let (e, tokens) = tree(alloc, c, room, tokens)?;
    Ok((Box::new(alloc, e)?, tokens))
}

// A space, the tree to the right of an operator, and the bracket.
#[cycle(reading)]
fn right<'t, 'a>(
    alloc: Global,
    c: &Context<'_>,
    room: u32,
    operator: BinOp,
    left: Box<Expr>,
    tokens: &'t [Token<'a>],
) -> Result<(Expr, &'t [Token<'a>]), Trouble>
    requires { IsWordSize c.now.bits }
    ensures { Gives (λ x. (tree_of x.0, tokens_of x.1.now)) result
        (Reading.right (Reading.tree (context_of c.now) room) operator (tree_of left.value) (tokens_of tokens.now)) }
{
    let tokens = expect(Sign::Space, tokens)?;
    let (right, tokens) = boxed(alloc, c, room, tokens)?;
    let tokens = expect(Sign::RightParen, tokens)?;
    Ok((Expr::Bin(operator, left, right), tokens))
}

// What follows the left tree.
#[cycle(reading)]
fn operator<'t, 'a>(
    alloc: Global,
    c: &Context<'_>,
    room: u32,
    left: Box<Expr>,
    tokens: &'t [Token<'a>],
) -> Result<(Expr, &'t [Token<'a>]), Trouble>
    requires { IsWordSize c.now.bits }
    ensures { Gives (λ x. (tree_of x.0, tokens_of x.1.now)) result
        (Reading.operator (context_of c.now) (Reading.tree (context_of c.now) room) (tree_of left.value) (tokens_of tokens.now)) }
{
    let tokens = expect(Sign::Space, tokens)?;
    match sense_of(c, head_of(tokens)) {
        Sense::Binary(operator) => right(alloc, c, room, operator, left, rest_of(tokens)),
        _ => Err(wrong(tokens)),
    }
}

// A relation has been read behind a flag: with the bracket it tests the flag.
#[cycle(reading)]
fn after_relation<'t, 'a>(
    alloc: Global,
    c: &Context<'_>,
    room: u32,
    relation: Rel,
    flag: Box<Expr>,
    tokens: &'t [Token<'a>],
) -> Result<(Expr, &'t [Token<'a>]), Trouble>
    requires { IsWordSize c.now.bits }
    ensures { Gives (λ x. (tree_of x.0, tokens_of x.1.now)) result
        (Reading.after_relation (Reading.tree (context_of c.now) room) relation (tree_of flag.value) (tokens_of tokens.now)) }
{
    if !is_sign(Sign::RightParen, head_of(tokens)) {
        return right(alloc, c, room, BinOp::Cmp(relation), flag, tokens);
    }
    Ok((Expr::Un(UnOp::Test(relation), flag), rest_of(tokens)))
}

// An operator stands behind a flag.
#[cycle(reading)]
fn after_operator<'t, 'a>(
    alloc: Global,
    c: &Context<'_>,
    room: u32,
    operator: BinOp,
    flag: Box<Expr>,
    tokens: &'t [Token<'a>],
) -> Result<(Expr, &'t [Token<'a>]), Trouble>
    requires { IsWordSize c.now.bits }
    ensures { Gives (λ x. (tree_of x.0, tokens_of x.1.now)) result
        (Reading.tested_on (Reading.tree (context_of c.now) room) (tree_of flag.value) (tokens_of tokens.now) (Sense.Binary operator)) }
{
    let tokens = rest_of(tokens);
    match operator {
        BinOp::Cmp(relation) => after_relation(alloc, c, room, relation, flag, tokens),
        _ => right(alloc, c, room, operator, flag, tokens),
    }
}

// What follows a flag as the left tree.
#[cycle(reading)]
fn tested<'t, 'a>(
    alloc: Global,
    c: &Context<'_>,
    room: u32,
    flag: Box<Expr>,
    tokens: &'t [Token<'a>],
) -> Result<(Expr, &'t [Token<'a>]), Trouble>
    requires { IsWordSize c.now.bits }
    ensures { Gives (λ x. (tree_of x.0, tokens_of x.1.now)) result
        (Reading.tested (context_of c.now) (Reading.tree (context_of c.now) room) (tree_of flag.value) (tokens_of tokens.now)) }
{
    let tokens = expect(Sign::Space, tokens)?;
    match sense_of(c, head_of(tokens)) {
        Sense::Binary(operator) => after_operator(alloc, c, room, operator, flag, tokens),
        _ => Err(wrong(tokens)),
    }
}

// What follows an operator that stands before its tree.
#[cycle(reading)]
fn unary<'t, 'a>(
    alloc: Global,
    c: &Context<'_>,
    room: u32,
    operator: UnOp,
    tokens: &'t [Token<'a>],
) -> Result<(Expr, &'t [Token<'a>]), Trouble>
    requires { IsWordSize c.now.bits }
    ensures { Gives (λ x. (tree_of x.0, tokens_of x.1.now)) result
        (unary (Reading.tree (context_of c.now) room) operator (tokens_of tokens.now)) }
{
    let tokens = expect(Sign::Space, tokens)?;
    let (a, tokens) = boxed(alloc, c, room, tokens)?;
    let tokens = expect(Sign::RightParen, tokens)?;
    Ok((Expr::Un(operator, a), tokens))
}

// Behind the bracket: an operator before its tree, or a tree.
#[cycle(reading)]
fn inside<'t, 'a>(
    alloc: Global,
    c: &Context<'_>,
    room: u32,
    tokens: &'t [Token<'a>],
) -> Result<(Expr, &'t [Token<'a>]), Trouble>
    requires { IsWordSize c.now.bits }
    ensures { Gives (λ x. (tree_of x.0, tokens_of x.1.now)) result
        (Reading.inside (context_of c.now) (Reading.tree (context_of c.now) room) (tokens_of tokens.now)) }
{
    match sense_of(c, head_of(tokens)) {
        Sense::Unary(operator) => unary(alloc, c, room, operator, rest_of(tokens)),
        Sense::Bank(Bank::Flag) => {
            let (flag, tokens) = boxed(alloc, c, room, tokens)?;
            tested(alloc, c, room, flag, tokens)
        }
        _ => {
            let (left, tokens) = boxed(alloc, c, room, tokens)?;
            operator(alloc, c, room, left, tokens)
        }
    }
}

#[cycle(reading)]
fn tree_at_sign<'t, 'a>(
    alloc: Global,
    c: &Context<'_>,
    room: u32,
    tokens: &'t [Token<'a>],
    sign: Sign,
) -> Result<(Expr, &'t [Token<'a>]), Trouble>
    requires { IsWordSize c.now.bits }
    ensures { Gives (λ x. (tree_of x.0, tokens_of x.1.now)) result
        (Reading.tree_on (context_of c.now) (Reading.tree (context_of c.now) room) (tokens_of tokens.now) (Sense.Sign sign)) }
{
    match sign {
        Sign::LeftParen => inside(alloc, c, room, rest_of(tokens)),
        Sign::Less => hole(alloc, c, tokens),
        _ => Err(wrong(tokens)),
    }
}

#[cycle(reading)]
fn memory<'t, 'a>(
    alloc: Global,
    c: &Context<'_>,
    room: u32,
    width: Width,
    tokens: &'t [Token<'a>],
) -> Result<(Expr, &'t [Token<'a>]), Trouble>
    requires { IsWordSize c.now.bits }
    ensures { Gives (λ x. (tree_of x.0, tokens_of x.1.now)) result
        (Reading.tree_on (context_of c.now) (Reading.tree (context_of c.now) room) (tokens_of tokens.now) (Sense.Memory width)) }
{
    let (address, tokens) = address(alloc, c, room, rest_of(tokens))?;
    Ok((Expr::Mem(width, Box::new(alloc, address)?), tokens))
}

#[cycle(reading)]
fn tree_on<'t, 'a>(
    alloc: Global,
    c: &Context<'_>,
    room: u32,
    tokens: &'t [Token<'a>],
    sense: Sense,
) -> Result<(Expr, &'t [Token<'a>]), Trouble>
    requires { IsWordSize c.now.bits }
    ensures { Gives (λ x. (tree_of x.0, tokens_of x.1.now)) result
        (Reading.tree_on (context_of c.now) (Reading.tree (context_of c.now) room) (tokens_of tokens.now) sense) }
{
    match sense {
        Sense::Number(word) => Ok((Expr::Num(word), rest_of(tokens))),
        Sense::Object(place) => Ok((Expr::Sym(place), rest_of(tokens))),
        Sense::Label(label) => Ok((Expr::Label(label), rest_of(tokens))),
        Sense::Cell(cell) => Ok((Expr::Cell(cell), rest_of(tokens))),
        Sense::Bank(bank) => {
            let (cell, tokens) = index(bank, rest_of(tokens))?;
            Ok((Expr::Cell(cell), tokens))
        }
        Sense::Memory(width) => memory(alloc, c, room, width, tokens),
        Sense::Sign(sign) => tree_at_sign(alloc, c, room, tokens, sign),
        _ => Err(wrong(tokens)),
    }
}

/// The tree with which the tokens begin, of at most `room` trees one in the other, and the tokens behind it. `Reading.tree` says it
/// of tokens; nothing is said where memory runs out.
#[cycle(reading)]
pub fn tree<'t, 'a>(
    alloc: Global,
    c: &Context<'_>,
    room: u32,
    tokens: &'t [Token<'a>],
) -> Result<(Expr, &'t [Token<'a>]), Trouble>
    requires { IsWordSize c.now.bits }
    ensures { Gives (λ x. (tree_of x.0, tokens_of x.1.now)) result (Reading.tree (context_of c.now) room (tokens_of tokens.now)) }
{
    let sense = sense_of(c, head_of(tokens));
    if room == 0 {
        return Err(too_deep(c, tokens, sense));
    }
    tree_on(alloc, c, room - 1, tokens, sense)
}

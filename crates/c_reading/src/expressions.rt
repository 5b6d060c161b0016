//! The reading of expressions (C11 6.5).
//!
//! `depth` bounds the calls, and goes down with each. `nesting` is how deep the next token stands.

ghost use Rattle.std.specs.Prelude.{◌≡◌, ◌≤◌, [], IfOk};
ghost use Rattle.c_grammar.specs.Words.{lexemes};
ghost use Rattle.c_reading.specs.Expressions as spec;
ghost use Rattle.c_reading.specs.Ahead.{Reads, ReadsAt, shallow};

use crate::fault::Fault;
use crate::nodes;
use crate::tokens::{eat, expect, more, peek, place, wrong};
use crate::trees::{assign_operator, binary_operator, is_unary, joined, precedence, type_of};
use c_grammar::Sign;
use c_tree::syntax::{Expr, StepOperator, TypeWords, UnaryOperator};
use c_tree::{At, Token, TokenKind};
use sqlite_items::{Boxed, Items};
use std::alloc::Global;

#[tactic(auto, unfolding(crate::specs::Expressions::type_words))]
pub fn type_words(nesting: u32, tokens: &[Token]) -> Result<(TypeWords, &[Token]), Fault>
    ensures reads { ReadsAt nesting (spec.type_words shallow nesting (lexemes tokens.now)) result }
    ensures few { IfOk result (λ _. nesting ≤ 200) }
{
    let Some(first) = type_of(peek(tokens)) else {
        return Err(wrong(tokens));
    };
    let tokens = eat(nesting, tokens)?;
    match joined(first, peek(tokens)) {
        None => Ok((first, tokens)),
        Some(both) => Ok((both, eat(nesting, tokens)?)),
    }
}

#[cycle(reading)]
pub fn expression(
    alloc: Global,
    depth: usize,
    nesting: u32,
    tokens: &[Token],
) -> Result<(Boxed<Expr>, u32, &[Token]), Fault>
    requires { nesting ≤ 201 }
    ensures reads { Reads (spec.read shallow depth spec.expr nesting (lexemes tokens.now)) result }
    ensures few { IfOk result (λ x. x.1 ≤ 201) }
{
    if depth == 0 {
        return Err(Fault::Out);
    }
    let (e, tokens) = assignment(alloc, depth - 1, nesting, tokens)?;
    more_commas(alloc, depth - 1, e, nesting, tokens)
}

#[cycle(reading)]
fn more_commas(
    alloc: Global,
    depth: usize,
    e: Boxed<Expr>,
    nesting: u32,
    tokens: &[Token],
) -> Result<(Boxed<Expr>, u32, &[Token]), Fault>
    requires { nesting ≤ 201 }
    ensures reads { Reads (spec.read shallow depth (spec.after_comma e) nesting (lexemes tokens.now)) result }
    ensures few { IfOk result (λ x. x.1 ≤ 201) }
{
    if depth == 0 {
        return Err(Fault::Out);
    }
    match peek(tokens) {
        Sign::Comma => {
            let tokens = eat(nesting, tokens)?;
            let (right, tokens) = assignment(alloc, depth - 1, nesting + 1, tokens)?;
            let e = nodes::comma(alloc, e, right)?;
            more_commas(alloc, depth - 1, e, nesting + 1, tokens)
        }
        _ => Ok((e, nesting, tokens)),
    }
}

/// A phrase that counts in the nesting.
#[cycle(reading)]
pub fn assignment(
    alloc: Global,
    depth: usize,
    nesting: u32,
    tokens: &[Token],
) -> Result<(Boxed<Expr>, &[Token]), Fault>
    requires { nesting ≤ 201 }
    ensures reads { ReadsAt nesting (spec.read shallow depth spec.assign nesting (lexemes tokens.now)) result }
{
    if depth == 0 {
        return Err(Fault::Out);
    }
    let (left, inner, tokens) = conditional(alloc, depth - 1, nesting + 1, tokens)?;
    let (e, _, tokens) = after_left(alloc, depth - 1, left, inner, tokens)?;
    Ok((e, tokens))
}

/// What stands behind an operand that may be assigned to.
#[tactic(auto, unfolding(crate::specs::Expressions::after_left))]
#[cycle(reading)]
fn after_left(
    alloc: Global,
    depth: usize,
    e: Boxed<Expr>,
    nesting: u32,
    tokens: &[Token],
) -> Result<(Boxed<Expr>, u32, &[Token]), Fault>
    requires { nesting ≤ 201 }
    ensures reads { Reads (spec.after_left shallow (spec.read shallow depth) e nesting (lexemes tokens.now)) result }
    ensures few { IfOk result (λ x. x.1 ≤ 201) }
{
    match assign_operator(peek(tokens)) {
        None => Ok((e, nesting, tokens)),
        Some(operator) => {
            if !is_unary(e.get()) {
                return Ok((e, nesting, tokens));
            }
            let tokens = eat(nesting, tokens)?;
            let (right, tokens) = assignment(alloc, depth, nesting + 1, tokens)?;
            let e = nodes::assign(alloc, e, operator, right)?;
            Ok((e, nesting + 1, tokens))
        }
    }
}

#[cycle(reading)]
pub fn conditional(
    alloc: Global,
    depth: usize,
    nesting: u32,
    tokens: &[Token],
) -> Result<(Boxed<Expr>, u32, &[Token]), Fault>
    requires { nesting ≤ 202 }
    ensures reads { Reads (spec.read shallow depth spec.conditional nesting (lexemes tokens.now)) result }
    ensures few { IfOk result (λ x. x.1 ≤ 201) }
{
    if depth == 0 {
        return Err(Fault::Out);
    }
    let (test, nesting, tokens) = operation(alloc, depth - 1, 3, nesting, tokens)?;
    match peek(tokens) {
        Sign::Question => {
            let tokens = eat(nesting, tokens)?;
            let ((then, other), nesting, tokens) = branches(alloc, depth - 1, nesting + 1, tokens)?;
            let e = nodes::conditional(alloc, test, then, other)?;
            Ok((e, nesting, tokens))
        }
        _ => Ok((test, nesting, tokens)),
    }
}

/// The two expressions behind a question mark.
#[tactic(auto, unfolding(crate::specs::Expressions::branches))]
#[cycle(reading)]
fn branches(
    alloc: Global,
    depth: usize,
    nesting: u32,
    tokens: &[Token],
) -> Result<((Boxed<Expr>, Boxed<Expr>), u32, &[Token]), Fault>
    requires { nesting ≤ 201 }
    ensures reads { Reads (spec.branches shallow (spec.read shallow depth) nesting (lexemes tokens.now)) result }
    ensures few { IfOk result (λ x. x.1 ≤ 201) }
{
    let (then, nesting, tokens) = expression(alloc, depth, nesting, tokens)?;
    let tokens = expect(Sign::Colon, nesting, tokens)?;
    let (other, nesting, tokens) = conditional(alloc, depth, nesting, tokens)?;
    Ok(((then, other), nesting, tokens))
}

/// Operands and operators that bind at least so tightly.
#[cycle(reading)]
fn operation(
    alloc: Global,
    depth: usize,
    least: u32,
    nesting: u32,
    tokens: &[Token],
) -> Result<(Boxed<Expr>, u32, &[Token]), Fault>
    requires { nesting ≤ 202 }
    ensures reads { Reads (spec.read shallow depth (spec.binary least) nesting (lexemes tokens.now)) result }
    ensures few { IfOk result (λ x. x.1 ≤ 201) }
{
    if depth == 0 {
        return Err(Fault::Out);
    }
    let (e, nesting, tokens) = operand(alloc, depth - 1, nesting, tokens)?;
    more_operators(alloc, depth - 1, least, e, nesting, tokens)
}

#[cycle(reading)]
fn more_operators(
    alloc: Global,
    depth: usize,
    least: u32,
    e: Boxed<Expr>,
    nesting: u32,
    tokens: &[Token],
) -> Result<(Boxed<Expr>, u32, &[Token]), Fault>
    requires { nesting ≤ 201 }
    ensures reads { Reads (spec.read shallow depth (spec.after_operand least e) nesting (lexemes tokens.now)) result }
    ensures few { IfOk result (λ x. x.1 ≤ 201) }
{
    if depth == 0 {
        return Err(Fault::Out);
    }
    match binary_operator(peek(tokens)) {
        None => Ok((e, nesting, tokens)),
        Some(operator) => {
            let binds = precedence(operator);
            if binds < least {
                return Ok((e, nesting, tokens));
            }
            let tokens = eat(nesting, tokens)?;
            let (right, nesting, tokens) = operation(
                alloc,
                depth - 1,
                binds + 1,
                nesting + 1,
                tokens,
            )?;
            let e = nodes::binary(alloc, e, operator, right)?;
            more_operators(alloc, depth - 1, least, e, nesting, tokens)
        }
    }
}

#[cycle(reading)]
fn operand(
    alloc: Global,
    depth: usize,
    nesting: u32,
    tokens: &[Token],
) -> Result<(Boxed<Expr>, u32, &[Token]), Fault>
    requires { nesting ≤ 202 }
    ensures reads { Reads (spec.read shallow depth spec.cast nesting (lexemes tokens.now)) result }
    ensures few { IfOk result (λ x. x.1 ≤ 201) }
{
    if depth == 0 {
        return Err(Fault::Out);
    }
    match peek(tokens) {
        Sign::LeftParen => {
            let at = place(tokens);
            let tokens = eat(nesting, tokens)?;
            cast_or_parenthesis(alloc, depth - 1, at, nesting, tokens)
        }
        _ => unary_operand(alloc, depth - 1, nesting, tokens),
    }
}

/// What stands behind an opening parenthesis.
#[tactic(auto, unfolding(crate::specs::Expressions::cast_or_parenthesis))]
#[cycle(reading)]
fn cast_or_parenthesis(
    alloc: Global,
    depth: usize,
    at: At,
    nesting: u32,
    tokens: &[Token],
) -> Result<(Boxed<Expr>, u32, &[Token]), Fault>
    requires { nesting ≤ 200 }
    ensures reads { Reads (spec.cast_or_parenthesis shallow (spec.read shallow depth) at nesting (lexemes tokens.now)) result }
    ensures few { IfOk result (λ x. x.1 ≤ 201) }
{
    match type_of(peek(tokens)) {
        None => parenthesis(alloc, depth, at, nesting, tokens),
        Some(_) => {
            let (words, tokens) = type_words(nesting, tokens)?;
            let tokens = expect(Sign::RightParen, nesting, tokens)?;
            let (e, nesting, tokens) = operand(alloc, depth, nesting + 1, tokens)?;
            let e = Boxed::new(alloc, Expr::Cast(at, words, e))?;
            Ok((e, nesting, tokens))
        }
    }
}

/// What stands behind an opening parenthesis that begins no cast.
#[tactic(auto, unfolding(crate::specs::Expressions::parenthesis))]
#[cycle(reading)]
fn parenthesis(
    alloc: Global,
    depth: usize,
    at: At,
    nesting: u32,
    tokens: &[Token],
) -> Result<(Boxed<Expr>, u32, &[Token]), Fault>
    requires { nesting ≤ 200 }
    ensures reads { Reads (spec.parenthesis shallow (spec.read shallow depth) at nesting (lexemes tokens.now)) result }
    ensures few { IfOk result (λ x. x.1 ≤ 201) }
{
    let (e, nesting, tokens) = expression(alloc, depth, nesting, tokens)?;
    let tokens = expect(Sign::RightParen, nesting, tokens)?;
    let e = Boxed::new(alloc, Expr::Paren(at, e))?;
    more_steps(alloc, depth, e, nesting, tokens)
}

#[cycle(reading)]
fn unary_operand(
    alloc: Global,
    depth: usize,
    nesting: u32,
    tokens: &[Token],
) -> Result<(Boxed<Expr>, u32, &[Token]), Fault>
    requires { nesting ≤ 202 }
    ensures reads { Reads (spec.read shallow depth spec.unary nesting (lexemes tokens.now)) result }
    ensures few { IfOk result (λ x. x.1 ≤ 201) }
{
    if depth == 0 {
        return Err(Fault::Out);
    }
    let depth = depth - 1;
    let at = place(tokens);
    match peek(tokens) {
        Sign::Increment => stepped(alloc, depth, at, StepOperator::Increment, nesting, tokens),
        Sign::Decrement => stepped(alloc, depth, at, StepOperator::Decrement, nesting, tokens),
        Sign::Plus => signed(alloc, depth, at, UnaryOperator::Plus, nesting, tokens),
        Sign::Minus => signed(alloc, depth, at, UnaryOperator::Minus, nesting, tokens),
        Sign::Tilde => signed(alloc, depth, at, UnaryOperator::Complement, nesting, tokens),
        Sign::Exclamation => signed(alloc, depth, at, UnaryOperator::Not, nesting, tokens),
        Sign::LeftParen => {
            let tokens = eat(nesting, tokens)?;
            parenthesis(alloc, depth, at, nesting, tokens)
        }
        _ => primary(alloc, depth, at, nesting, tokens),
    }
}

#[tactic(auto, unfolding(crate::specs::Expressions::stepped))]
#[cycle(reading)]
fn stepped(
    alloc: Global,
    depth: usize,
    at: At,
    operator: StepOperator,
    nesting: u32,
    tokens: &[Token],
) -> Result<(Boxed<Expr>, u32, &[Token]), Fault>
    ensures reads { Reads (spec.stepped shallow (spec.read shallow depth) at operator nesting (lexemes tokens.now)) result }
    ensures few { IfOk result (λ x. x.1 ≤ 201) }
{
    let tokens = eat(nesting, tokens)?;
    let (e, nesting, tokens) = unary_operand(alloc, depth, nesting + 1, tokens)?;
    let e = Boxed::new(alloc, Expr::Before(at, operator, e))?;
    Ok((e, nesting, tokens))
}

#[tactic(auto, unfolding(crate::specs::Expressions::signed))]
#[cycle(reading)]
fn signed(
    alloc: Global,
    depth: usize,
    at: At,
    operator: UnaryOperator,
    nesting: u32,
    tokens: &[Token],
) -> Result<(Boxed<Expr>, u32, &[Token]), Fault>
    ensures reads { Reads (spec.signed shallow (spec.read shallow depth) at operator nesting (lexemes tokens.now)) result }
    ensures few { IfOk result (λ x. x.1 ≤ 201) }
{
    let tokens = eat(nesting, tokens)?;
    let (e, nesting, tokens) = operand(alloc, depth, nesting + 1, tokens)?;
    let e = Boxed::new(alloc, Expr::Unary(at, operator, e))?;
    Ok((e, nesting, tokens))
}

#[tactic(auto, unfolding(crate::specs::Expressions::primary, crate::specs::Parsers::word_at))]
#[cycle(reading)]
fn primary(
    alloc: Global,
    depth: usize,
    at: At,
    nesting: u32,
    tokens: &[Token],
) -> Result<(Boxed<Expr>, u32, &[Token]), Fault>
    ensures reads { Reads (spec.primary shallow (spec.read shallow depth) at nesting (lexemes tokens.now)) result }
    ensures few { IfOk result (λ x. x.1 ≤ 201) }
{
    let [token, ..] = tokens else {
        return Err(wrong(tokens));
    };
    match &token.kind {
        TokenKind::Name(name) => {
            let name = Items::from_slice(alloc, name.as_slice())?;
            let tokens = eat(nesting, tokens)?;
            named(alloc, depth, at, name, nesting, tokens)
        }
        TokenKind::Number {
            value,
            decimal,
            unsigned,
        } => {
            let e = nodes::number(alloc, at, *value, *decimal, *unsigned)?;
            let tokens = eat(nesting, tokens)?;
            more_steps(alloc, depth, e, nesting, tokens)
        }
        TokenKind::Character(value) => {
            let e = Boxed::new(alloc, Expr::Character(at, *value))?;
            let tokens = eat(nesting, tokens)?;
            more_steps(alloc, depth, e, nesting, tokens)
        }
        _ => Err(wrong(tokens)),
    }
}

/// What stands behind a name.
#[tactic(auto, unfolding(crate::specs::Expressions::named))]
#[cycle(reading)]
fn named(
    alloc: Global,
    depth: usize,
    at: At,
    name: Items<u8>,
    nesting: u32,
    tokens: &[Token],
) -> Result<(Boxed<Expr>, u32, &[Token]), Fault>
    requires { nesting ≤ 200 }
    ensures reads { Reads (spec.named shallow (spec.read shallow depth) at name nesting (lexemes tokens.now)) result }
    ensures few { IfOk result (λ x. x.1 ≤ 201) }
{
    match peek(tokens) {
        Sign::LeftBracket => {
            let tokens = eat(nesting, tokens)?;
            let (index, nesting, tokens) = expression(alloc, depth, nesting, tokens)?;
            let tokens = expect(Sign::RightBracket, nesting, tokens)?;
            let e = Boxed::new(alloc, Expr::Element(at, name, index))?;
            more_steps(alloc, depth, e, nesting, tokens)
        }
        Sign::LeftParen => {
            let tokens = eat(nesting, tokens)?;
            let (e, tokens) = called(alloc, depth, at, name, nesting, tokens)?;
            more_steps(alloc, depth, e, nesting, tokens)
        }
        _ => {
            let e = Boxed::new(alloc, Expr::Name(at, name))?;
            more_steps(alloc, depth, e, nesting, tokens)
        }
    }
}

/// What stands behind the opening parenthesis of a call.
#[tactic(auto, unfolding(crate::specs::Expressions::called))]
#[cycle(reading)]
fn called(
    alloc: Global,
    depth: usize,
    at: At,
    name: Items<u8>,
    nesting: u32,
    tokens: &[Token],
) -> Result<(Boxed<Expr>, &[Token]), Fault>
    requires { nesting ≤ 200 }
    ensures reads { ReadsAt nesting (spec.called shallow (spec.read shallow depth) at name nesting (lexemes tokens.now)) result }
{
    match peek(tokens) {
        Sign::RightParen => {
            let tokens = eat(nesting, tokens)?;
            let e = Boxed::new(alloc, Expr::Call(at, name, Items::new(alloc)))?;
            Ok((e, tokens))
        }
        _ => arguments(alloc, depth, at, name, nesting, tokens),
    }
}

/// Arguments up to the closing parenthesis.
#[cycle(reading)]
fn arguments(
    alloc: Global,
    mut depth: usize,
    at: At,
    name: Items<u8>,
    nesting: u32,
    tokens: &[Token],
) -> Result<(Boxed<Expr>, &[Token]), Fault>
    requires { nesting ≤ 200 }
    ensures reads { ReadsAt nesting (spec.read shallow depth (spec.in_call at name []) nesting (lexemes tokens.now)) result }
{
    let mut arguments = Items::new(alloc);
    let mut rest = tokens;
    while depth > 0 {
        depth -= 1;
        let (e, behind) = assignment(alloc, depth, nesting, rest)?;
        nodes::push(&mut arguments, e)?;
        let (goes_on, behind) = more(Sign::RightParen, nesting, behind)?;
        if !goes_on {
            let e = Boxed::new(alloc, Expr::Call(at, name, arguments))?;
            return Ok((e, behind));
        }
        rest = behind;
    }
    Err(Fault::Out)
}

/// Steps behind an operand.
#[cycle(steps)]
fn more_steps(
    alloc: Global,
    depth: usize,
    e: Boxed<Expr>,
    nesting: u32,
    tokens: &[Token],
) -> Result<(Boxed<Expr>, u32, &[Token]), Fault>
    requires { nesting ≤ 201 }
    ensures reads { Reads (spec.read shallow depth (spec.after_postfix e) nesting (lexemes tokens.now)) result }
    ensures few { IfOk result (λ x. x.1 ≤ 201) }
{
    if depth == 0 {
        return Err(Fault::Out);
    }
    let depth = depth - 1;
    match peek(tokens) {
        Sign::Increment => {
            stepped_behind(alloc, depth, e, StepOperator::Increment, nesting, tokens)
        }
        Sign::Decrement => {
            stepped_behind(alloc, depth, e, StepOperator::Decrement, nesting, tokens)
        }
        _ => Ok((e, nesting, tokens)),
    }
}

#[tactic(auto, unfolding(crate::specs::Expressions::stepped_behind))]
#[cycle(steps)]
fn stepped_behind(
    alloc: Global,
    depth: usize,
    e: Boxed<Expr>,
    operator: StepOperator,
    nesting: u32,
    tokens: &[Token],
) -> Result<(Boxed<Expr>, u32, &[Token]), Fault>
    ensures reads { Reads (spec.stepped_behind shallow (spec.read shallow depth) e operator nesting (lexemes tokens.now)) result }
    ensures few { IfOk result (λ x. x.1 ≤ 201) }
{
    let tokens = eat(nesting, tokens)?;
    let e = nodes::after(alloc, e, operator)?;
    more_steps(alloc, depth, e, nesting + 1, tokens)
}

//! The reading of declarations (C11 6.7).
//!
//! `depth` bounds the calls. `nesting` is how deep the next token stands, before and after.

ghost use Rattle.std.specs.Prelude.{◌≡◌, ◌≤◌, []};
ghost use Rattle.c_grammar.specs.Words.{lexemes};
ghost use Rattle.c_reading.specs.Expressions.{read};
ghost use Rattle.c_declarations.specs.Declarations as spec;
ghost use Rattle.c_reading.specs.Ahead.{ReadsAt, shallow};

use c_grammar::Sign;
use c_reading::{
    Fault, assignment, conditional, eat, expect, more, name, name_if_any, peek, place, push,
    type_words,
};
use c_tree::syntax::{
    Declaration, Expr, Identifier, Initialiser, Item, Parameter, Parameters, Return, Size,
    TypeWords,
};
use c_tree::{At, Token};
use sqlite_items::{Boxed, Items};
use std::alloc::Global;

/// Objects with their semicolon, or a function up to its closing parenthesis.
#[derive(Drop)]
pub enum Opening {
    Objects(Boxed<Declaration>),
    Function(At, Return, Identifier, Parameters),
}

/// What stands behind an opening bracket.
#[tactic(auto, unfolding(crate::specs::Declarations::given_size))]
fn given_size(
    alloc: Global,
    depth: usize,
    nesting: u32,
    tokens: &[Token],
) -> Result<(Boxed<Size>, &[Token]), Fault>
    requires { nesting ≤ 200 }
    ensures reads { ReadsAt nesting (spec.given_size shallow (read shallow depth) nesting (lexemes tokens.now)) result }
{
    if peek(tokens) == Sign::RightBracket {
        let tokens = eat(nesting, tokens)?;
        return Ok((Boxed::new(alloc, Size::Absent)?, tokens));
    }
    let (e, _, tokens) = conditional(alloc, depth, nesting + 1, tokens)?;
    let tokens = expect(Sign::RightBracket, nesting, tokens)?;
    Ok((Boxed::new(alloc, Size::Given(e.into_inner()))?, tokens))
}

#[tactic(auto, unfolding(crate::specs::Declarations::size))]
fn size(
    alloc: Global,
    depth: usize,
    nesting: u32,
    tokens: &[Token],
) -> Result<(Boxed<Size>, &[Token]), Fault>
    requires { nesting ≤ 200 }
    ensures reads { ReadsAt nesting (spec.size shallow (read shallow depth) nesting (lexemes tokens.now)) result }
{
    if peek(tokens) == Sign::LeftBracket {
        let tokens = eat(nesting, tokens)?;
        given_size(alloc, depth, nesting, tokens)
    } else {
        Ok((Boxed::new(alloc, Size::Scalar)?, tokens))
    }
}

/// Behind a value in braces: where it is the last one, whether a comma stands behind it.
#[tactic(auto, unfolding(crate::specs::Declarations::value_end))]
fn value_end(nesting: u32, tokens: &[Token]) -> Result<(Option<bool>, &[Token]), Fault>
    ensures reads { ReadsAt nesting (spec.value_end shallow nesting (lexemes tokens.now)) result }
{
    let (goes_on, tokens) = more(Sign::RightBrace, nesting, tokens)?;
    if !goes_on {
        Ok((Some(false), tokens))
    } else if peek(tokens) == Sign::RightBrace {
        Ok((Some(true), eat(nesting, tokens)?))
    } else {
        Ok((None, tokens))
    }
}

#[tactic(auto, unfolding(crate::specs::Declarations::next_value))]
fn next_value(
    alloc: Global,
    depth: usize,
    nesting: u32,
    tokens: &[Token],
) -> Result<((Boxed<Expr>, Option<bool>), &[Token]), Fault>
    requires { nesting ≤ 200 }
    ensures reads { ReadsAt nesting (spec.next_value shallow depth nesting (lexemes tokens.now)) result }
{
    let (e, tokens) = assignment(alloc, depth, nesting, tokens)?;
    let (end, tokens) = value_end(nesting, tokens)?;
    Ok(((e, end), tokens))
}

/// The values in braces, behind the opening one.
#[tactic(auto, unfolding(crate::specs::Declarations::values))]
fn values(
    alloc: Global,
    mut depth: usize,
    at: At,
    nesting: u32,
    tokens: &[Token],
) -> Result<(Boxed<Initialiser>, &[Token]), Fault>
    requires { nesting ≤ 200 }
    ensures reads { ReadsAt nesting (spec.values shallow depth at [] nesting (lexemes tokens.now)) result }
{
    let mut values = Items::new(alloc);
    let mut rest = tokens;
    while depth > 0 {
        depth -= 1;
        let ((e, end), behind) = next_value(alloc, depth, nesting, rest)?;
        push(&mut values, e)?;
        if let Some(comma) = end {
            let list = Boxed::new(alloc, Initialiser::List(at, values, comma))?;
            return Ok((list, behind));
        }
        rest = behind;
    }
    Err(Fault::Out)
}

/// What stands behind an equals sign.
#[tactic(auto, unfolding(crate::specs::Declarations::value))]
fn value(
    alloc: Global,
    depth: usize,
    nesting: u32,
    tokens: &[Token],
) -> Result<(Boxed<Initialiser>, &[Token]), Fault>
    requires { nesting ≤ 200 }
    ensures reads { ReadsAt nesting (spec.value shallow depth nesting (lexemes tokens.now)) result }
{
    match peek(tokens) {
        Sign::LeftBrace => {
            let at = place(tokens);
            let tokens = eat(nesting, tokens)?;
            values(alloc, depth, at, nesting, tokens)
        }
        _ => {
            let (e, tokens) = assignment(alloc, depth, nesting, tokens)?;
            Ok((
                Boxed::new(alloc, Initialiser::Value(e.into_inner()))?,
                tokens,
            ))
        }
    }
}

#[tactic(auto, unfolding(crate::specs::Declarations::initialiser))]
fn initialiser(
    alloc: Global,
    depth: usize,
    nesting: u32,
    tokens: &[Token],
) -> Result<(Boxed<Initialiser>, &[Token]), Fault>
    requires { nesting ≤ 200 }
    ensures reads { ReadsAt nesting (spec.initialiser shallow depth nesting (lexemes tokens.now)) result }
{
    if peek(tokens) == Sign::Assign {
        let tokens = eat(nesting, tokens)?;
        value(alloc, depth, nesting, tokens)
    } else {
        Ok((Boxed::new(alloc, Initialiser::Absent)?, tokens))
    }
}

/// What stands behind the name of an object.
#[tactic(auto, unfolding(crate::specs::Declarations::object))]
fn object(
    alloc: Global,
    depth: usize,
    name: Identifier,
    nesting: u32,
    tokens: &[Token],
) -> Result<(Boxed<Item>, &[Token]), Fault>
    requires { nesting ≤ 200 }
    ensures reads { ReadsAt nesting (spec.object shallow depth name nesting (lexemes tokens.now)) result }
{
    let (size, tokens) = size(alloc, depth, nesting, tokens)?;
    let (initialiser, tokens) = initialiser(alloc, depth, nesting, tokens)?;
    let item = Item {
        name,
        size: size.into_inner(),
        initialiser: initialiser.into_inner(),
    };
    Ok((Boxed::new(alloc, item)?, tokens))
}

/// An object, and whether a comma stands behind it.
#[tactic(auto, unfolding(crate::specs::Declarations::next_object))]
fn next_object(
    alloc: Global,
    depth: usize,
    name: Identifier,
    nesting: u32,
    tokens: &[Token],
) -> Result<((Boxed<Item>, bool), &[Token]), Fault>
    requires { nesting ≤ 200 }
    ensures reads { ReadsAt nesting (spec.next_object shallow depth name nesting (lexemes tokens.now)) result }
{
    let (item, tokens) = object(alloc, depth, name, nesting, tokens)?;
    let (goes_on, tokens) = more(Sign::Semicolon, nesting, tokens)?;
    Ok(((item, goes_on), tokens))
}

#[tactic(auto, unfolding(crate::specs::Declarations::next_item))]
fn next_item(
    alloc: Global,
    depth: usize,
    nesting: u32,
    tokens: &[Token],
) -> Result<((Boxed<Item>, bool), &[Token]), Fault>
    ensures reads { ReadsAt nesting (spec.next_item shallow depth nesting (lexemes tokens.now)) result }
{
    let (name, tokens) = name(alloc, nesting, tokens)?;
    next_object(alloc, depth, name, nesting, tokens)
}

/// The objects behind those that were read, up to the semicolon.
#[tactic(auto, unfolding(crate::specs::Declarations::items))]
fn items_behind(
    alloc: Global,
    mut depth: usize,
    mut items: Items<Item>,
    nesting: u32,
    tokens: &[Token],
) -> Result<(Items<Item>, &[Token]), Fault>
    ensures reads { ReadsAt nesting (spec.items shallow depth items nesting (lexemes tokens.now)) result }
{
    let mut rest = tokens;
    while depth > 0 {
        depth -= 1;
        let ((item, goes_on), behind) = next_item(alloc, depth, nesting, rest)?;
        push(&mut items, item)?;
        if !goes_on {
            return Ok((items, behind));
        }
        rest = behind;
    }
    Err(Fault::Out)
}

/// The objects of a declaration, behind the first one's name.
#[tactic(auto, unfolding(crate::specs::Declarations::objects))]
fn objects(
    alloc: Global,
    depth: usize,
    name: Identifier,
    nesting: u32,
    tokens: &[Token],
) -> Result<(Items<Item>, &[Token]), Fault>
    requires { nesting ≤ 200 }
    ensures reads { ReadsAt nesting (spec.objects shallow depth name nesting (lexemes tokens.now)) result }
{
    let ((first, goes_on), tokens) = next_object(alloc, depth, name, nesting, tokens)?;
    let mut items = Items::new(alloc);
    push(&mut items, first)?;
    if goes_on {
        items_behind(alloc, depth, items, nesting, tokens)
    } else {
        Ok((items, tokens))
    }
}

#[tactic(auto, unfolding(crate::specs::Declarations::parameter))]
fn parameter(alloc: Global, nesting: u32, tokens: &[Token]) -> Result<(Parameter, &[Token]), Fault>
    ensures reads { ReadsAt nesting (spec.parameter shallow nesting (lexemes tokens.now)) result }
{
    let at = place(tokens);
    let (words, tokens) = type_words(nesting, tokens)?;
    let (name, tokens) = name_if_any(alloc, nesting, tokens)?;
    Ok((Parameter { at, words, name }, tokens))
}

/// A parameter, and whether a comma stands behind it.
#[tactic(auto, unfolding(crate::specs::Declarations::next_parameter))]
fn next_parameter(
    alloc: Global,
    nesting: u32,
    tokens: &[Token],
) -> Result<((Parameter, bool), &[Token]), Fault>
    ensures reads { ReadsAt nesting (spec.next_parameter shallow nesting (lexemes tokens.now)) result }
{
    let (parameter, tokens) = parameter(alloc, nesting, tokens)?;
    let (goes_on, tokens) = more(Sign::RightParen, nesting, tokens)?;
    Ok(((parameter, goes_on), tokens))
}

#[tactic(auto, unfolding(crate::specs::Declarations::parameter_list))]
fn parameter_list(
    alloc: Global,
    mut depth: usize,
    nesting: u32,
    tokens: &[Token],
) -> Result<(Parameters, &[Token]), Fault>
    ensures reads { ReadsAt nesting (spec.parameter_list shallow depth [] nesting (lexemes tokens.now)) result }
{
    let mut parameters = Items::new(alloc);
    let mut rest = tokens;
    while depth > 0 {
        depth -= 1;
        let ((parameter, goes_on), behind) = next_parameter(alloc, nesting, rest)?;
        parameters.push(parameter)?;
        if !goes_on {
            return Ok((Parameters::List(parameters), behind));
        }
        rest = behind;
    }
    Err(Fault::Out)
}

/// What stands behind the opening parenthesis of a function.
#[tactic(auto, unfolding(crate::specs::Declarations::parameters))]
fn parameters(
    alloc: Global,
    depth: usize,
    nesting: u32,
    tokens: &[Token],
) -> Result<(Parameters, &[Token]), Fault>
    ensures reads { ReadsAt nesting (spec.parameters shallow depth nesting (lexemes tokens.now)) result }
{
    match peek(tokens) {
        Sign::RightParen => Ok((Parameters::Empty, eat(nesting, tokens)?)),
        Sign::Void => {
            let tokens = eat(nesting, tokens)?;
            Ok((Parameters::Void, expect(Sign::RightParen, nesting, tokens)?))
        }
        _ => parameter_list(alloc, depth, nesting, tokens),
    }
}

/// What stands behind the name of a function.
#[tactic(auto, unfolding(crate::specs::Declarations::heading))]
fn heading(
    alloc: Global,
    depth: usize,
    at: At,
    gives: Return,
    name: Identifier,
    nesting: u32,
    tokens: &[Token],
) -> Result<(Boxed<Opening>, &[Token]), Fault>
    ensures reads { ReadsAt nesting (spec.heading shallow depth at gives name nesting (lexemes tokens.now)) result }
{
    let tokens = expect(Sign::LeftParen, nesting, tokens)?;
    let (parameters, tokens) = parameters(alloc, depth, nesting, tokens)?;
    let opening = Boxed::new(alloc, Opening::Function(at, gives, name, parameters))?;
    Ok((opening, tokens))
}

/// What stands behind the type of a declaration.
#[tactic(auto, unfolding(crate::specs::Declarations::typed_opening))]
fn typed_opening(
    alloc: Global,
    depth: usize,
    at: At,
    words: TypeWords,
    nesting: u32,
    tokens: &[Token],
) -> Result<(Boxed<Opening>, &[Token]), Fault>
    ensures reads { ReadsAt nesting (spec.typed_opening shallow depth at words nesting (lexemes tokens.now)) result }
{
    let (name, tokens) = name(alloc, nesting, tokens)?;
    if peek(tokens) == Sign::LeftParen {
        return heading(
            alloc,
            depth,
            at,
            Return::Value(words),
            name,
            nesting,
            tokens,
        );
    }
    let (items, tokens) = objects(alloc, depth, name, nesting, tokens)?;
    let declaration = Boxed::new(alloc, Declaration::Objects(at, words, items))?;
    Ok((Boxed::new(alloc, Opening::Objects(declaration))?, tokens))
}

#[tactic(auto, unfolding(crate::specs::Declarations::opening))]
pub fn open_declaration(
    alloc: Global,
    depth: usize,
    nesting: u32,
    tokens: &[Token],
) -> Result<(Boxed<Opening>, &[Token]), Fault>
    ensures reads { ReadsAt nesting (spec.opening shallow depth nesting (lexemes tokens.now)) result }
{
    let at = place(tokens);
    match peek(tokens) {
        Sign::Void => {
            let tokens = eat(nesting, tokens)?;
            let (name, tokens) = name(alloc, nesting, tokens)?;
            heading(alloc, depth, at, Return::Void, name, nesting, tokens)
        }
        _ => {
            let (words, tokens) = type_words(nesting, tokens)?;
            typed_opening(alloc, depth, at, words, nesting, tokens)
        }
    }
}

#[tactic(auto, unfolding(crate::specs::Declarations::declaration))]
pub fn declaration(
    alloc: Global,
    depth: usize,
    nesting: u32,
    tokens: &[Token],
) -> Result<(Boxed<Declaration>, &[Token]), Fault>
    ensures reads { ReadsAt nesting (spec.declaration shallow depth nesting (lexemes tokens.now)) result }
{
    let (opening, tokens) = open_declaration(alloc, depth, nesting, tokens)?;
    match opening.into_inner() {
        Opening::Objects(declaration) => Ok((declaration, tokens)),
        Opening::Function(at, gives, name, parameters) => {
            let tokens = expect(Sign::Semicolon, nesting, tokens)?;
            let function = Boxed::new(alloc, Declaration::Function(at, gives, name, parameters))?;
            Ok((function, tokens))
        }
    }
}

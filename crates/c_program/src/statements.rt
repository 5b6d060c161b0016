//! The reading of statements (C11 6.8).
//!
//! `depth` bounds the calls. `nesting` is how deep the next token stands.

ghost use Rattle.std.specs.Prelude.{◌≡◌, ◌≤◌, [], IfOk};
ghost use Rattle.c_grammar.specs.Words.{lexemes};
ghost use Rattle.c_reading.specs.Expressions.{read};
ghost use Rattle.c_program.specs.Statements as spec;
ghost use Rattle.c_reading.specs.Ahead.{Reads, ReadsAt, shallow};

use c_declarations::declaration;
use c_grammar::Sign;
use c_reading::{
    Fault, begins_declaration, conditional, eat, expect, expression, peek, place, push, unboxed,
};
use c_tree::syntax::{Expr, Start, Statement};
use c_tree::{At, Token};
use sqlite_items::{Boxed, Items};
use std::alloc::Global;

/// An expression in parentheses.
#[tactic(auto, unfolding(crate::specs::Statements::condition))]
fn condition(
    alloc: Global,
    depth: usize,
    nesting: u32,
    tokens: &[Token],
) -> Result<(Boxed<Expr>, u32, &[Token]), Fault>
    ensures reads { Reads (spec.condition shallow (read shallow depth) nesting (lexemes tokens.now)) result }
    ensures few { IfOk result (λ x. x.1 ≤ 200) }
{
    let tokens = expect(Sign::LeftParen, nesting, tokens)?;
    let (e, nesting, tokens) = expression(alloc, depth, nesting, tokens)?;
    Ok((e, nesting, expect(Sign::RightParen, nesting, tokens)?))
}

/// An expression or none, up to this word.
#[tactic(auto, unfolding(crate::specs::Statements::optional))]
fn optional(
    alloc: Global,
    depth: usize,
    close: Sign,
    nesting: u32,
    tokens: &[Token],
) -> Result<(Option<Boxed<Expr>>, u32, &[Token]), Fault>
    requires { nesting ≤ 201 }
    ensures reads { Reads (spec.optional shallow (read shallow depth) close nesting (lexemes tokens.now)) result }
    ensures few { IfOk result (λ x. x.1 ≤ 200) }
{
    if peek(tokens) == close {
        return Ok((None, nesting, eat(nesting, tokens)?));
    }
    let (e, nesting, tokens) = expression(alloc, depth, nesting, tokens)?;
    Ok((Some(e), nesting, expect(close, nesting, tokens)?))
}

/// What stands behind the statement of a `do`.
#[tactic(auto, unfolding(crate::specs::Statements::do_end))]
fn do_end(
    alloc: Global,
    depth: usize,
    nesting: u32,
    tokens: &[Token],
) -> Result<(Boxed<Expr>, u32, &[Token]), Fault>
    ensures reads { Reads (spec.do_end shallow (read shallow depth) nesting (lexemes tokens.now)) result }
    ensures few { IfOk result (λ x. x.1 ≤ 200) }
{
    let tokens = expect(Sign::While, nesting, tokens)?;
    let (e, nesting, tokens) = condition(alloc, depth, nesting, tokens)?;
    Ok((e, nesting, expect(Sign::Semicolon, nesting, tokens)?))
}

/// A `case` up to its colon.
#[tactic(auto, unfolding(crate::specs::Statements::case_label))]
fn case_label(
    alloc: Global,
    depth: usize,
    nesting: u32,
    tokens: &[Token],
) -> Result<(Boxed<Expr>, &[Token]), Fault>
    ensures reads { ReadsAt nesting (spec.case_label shallow (read shallow depth) nesting (lexemes tokens.now)) result }
    ensures few { IfOk result (λ _. nesting ≤ 200) }
{
    let tokens = eat(nesting, tokens)?;
    let (e, _, tokens) = conditional(alloc, depth, nesting + 1, tokens)?;
    Ok((e, expect(Sign::Colon, nesting, tokens)?))
}

#[tactic(auto, unfolding(crate::specs::Statements::started))]
fn started(
    alloc: Global,
    depth: usize,
    nesting: u32,
    tokens: &[Token],
) -> Result<(Boxed<Start>, u32, &[Token]), Fault>
    requires { nesting ≤ 200 }
    ensures reads { Reads (spec.started shallow depth nesting (lexemes tokens.now)) result }
    ensures few { IfOk result (λ x. x.1 ≤ 200) }
{
    if begins_declaration(peek(tokens)) {
        let (declaration, tokens) = declaration(alloc, depth, nesting, tokens)?;
        let start = Boxed::new(alloc, Start::Declared(declaration.into_inner()))?;
        return Ok((start, nesting, tokens));
    }
    let (e, nesting, tokens) = expression(alloc, depth, nesting, tokens)?;
    let tokens = expect(Sign::Semicolon, nesting, tokens)?;
    let start = Boxed::new(alloc, Start::Value(e.into_inner()))?;
    Ok((start, nesting, tokens))
}

/// What stands before the first semicolon of a `for`.
#[tactic(auto, unfolding(crate::specs::Statements::start))]
fn start(
    alloc: Global,
    depth: usize,
    nesting: u32,
    tokens: &[Token],
) -> Result<(Boxed<Start>, u32, &[Token]), Fault>
    requires { nesting ≤ 200 }
    ensures reads { Reads (spec.start shallow depth nesting (lexemes tokens.now)) result }
    ensures few { IfOk result (λ x. x.1 ≤ 200) }
{
    match peek(tokens) {
        Sign::Semicolon => {
            let tokens = eat(nesting, tokens)?;
            Ok((Boxed::new(alloc, Start::Absent)?, nesting, tokens))
        }
        _ => started(alloc, depth, nesting, tokens),
    }
}

/// A `for` up to its closing parenthesis.
#[tactic(auto, unfolding(crate::specs::Statements::for_header))]
fn for_header(
    alloc: Global,
    depth: usize,
    nesting: u32,
    tokens: &[Token],
) -> Result<
    (
        (Boxed<Start>, Option<Boxed<Expr>>, Option<Boxed<Expr>>),
        u32,
        &[Token],
    ),
    Fault,
>
    ensures reads { Reads (spec.for_header shallow depth nesting (lexemes tokens.now)) result }
    ensures few { IfOk result (λ x. x.1 ≤ 200) }
{
    let tokens = eat(nesting, tokens)?;
    let tokens = expect(Sign::LeftParen, nesting, tokens)?;
    let (start, nesting, tokens) = start(alloc, depth, nesting, tokens)?;
    let (test, nesting, tokens) = optional(alloc, depth, Sign::Semicolon, nesting, tokens)?;
    let (step, nesting, tokens) = optional(alloc, depth, Sign::RightParen, nesting, tokens)?;
    Ok(((start, test, step), nesting, tokens))
}

#[tactic(auto, unfolding(crate::specs::Statements::return_statement))]
fn return_statement(
    alloc: Global,
    depth: usize,
    at: At,
    nesting: u32,
    tokens: &[Token],
) -> Result<(Boxed<Statement>, u32, &[Token]), Fault>
    requires { nesting ≤ 201 }
    ensures reads { Reads (spec.return_statement shallow depth (spec.statements shallow depth) at nesting (lexemes tokens.now)) result }
{
    let tokens = eat(nesting, tokens)?;
    let (e, nesting, tokens) = optional(alloc, depth, Sign::Semicolon, nesting, tokens)?;
    let statement = Boxed::new(alloc, Statement::Return(at, unboxed(e)))?;
    Ok((statement, nesting, tokens))
}

#[tactic(auto, unfolding(crate::specs::Statements::break_statement))]
fn break_statement(
    alloc: Global,
    depth: usize,
    at: At,
    nesting: u32,
    tokens: &[Token],
) -> Result<(Boxed<Statement>, u32, &[Token]), Fault>
    requires { nesting ≤ 201 }
    ensures reads { Reads (spec.break_statement shallow depth (spec.statements shallow depth) at nesting (lexemes tokens.now)) result }
{
    let tokens = eat(nesting, tokens)?;
    let tokens = expect(Sign::Semicolon, nesting, tokens)?;
    let statement = Boxed::new(alloc, Statement::Break(at))?;
    Ok((statement, nesting, tokens))
}

#[tactic(auto, unfolding(crate::specs::Statements::continue_statement))]
fn continue_statement(
    alloc: Global,
    depth: usize,
    at: At,
    nesting: u32,
    tokens: &[Token],
) -> Result<(Boxed<Statement>, u32, &[Token]), Fault>
    requires { nesting ≤ 201 }
    ensures reads { Reads (spec.continue_statement shallow depth (spec.statements shallow depth) at nesting (lexemes tokens.now)) result }
{
    let tokens = eat(nesting, tokens)?;
    let tokens = expect(Sign::Semicolon, nesting, tokens)?;
    let statement = Boxed::new(alloc, Statement::Continue(at))?;
    Ok((statement, nesting, tokens))
}

#[tactic(auto, unfolding(crate::specs::Statements::expression_statement))]
fn expression_statement(
    alloc: Global,
    depth: usize,
    at: At,
    nesting: u32,
    tokens: &[Token],
) -> Result<(Boxed<Statement>, u32, &[Token]), Fault>
    requires { nesting ≤ 201 }
    ensures reads { Reads (spec.expression_statement shallow depth (spec.statements shallow depth) at nesting (lexemes tokens.now)) result }
{
    let (e, nesting, tokens) = optional(alloc, depth, Sign::Semicolon, nesting, tokens)?;
    let statement = Boxed::new(alloc, Statement::Evaluate(at, unboxed(e)))?;
    Ok((statement, nesting, tokens))
}

#[tactic(auto, unfolding(crate::specs::Statements::block))]
#[cycle(statements)]
pub fn block(
    alloc: Global,
    depth: usize,
    nesting: u32,
    tokens: &[Token],
) -> Result<(Items<Statement>, &[Token]), Fault>
    requires { nesting ≤ 201 }
    ensures reads { ReadsAt nesting (spec.block shallow (spec.statements shallow depth) nesting (lexemes tokens.now)) result }
{
    let deep = nesting + 1;
    let tokens = expect(Sign::LeftBrace, deep, tokens)?;
    statements(alloc, depth, deep, tokens)
}

#[tactic(auto, unfolding(crate::specs::Statements::block_statement))]
#[cycle(statements)]
fn block_statement(
    alloc: Global,
    depth: usize,
    at: At,
    nesting: u32,
    tokens: &[Token],
) -> Result<(Boxed<Statement>, u32, &[Token]), Fault>
    requires { nesting ≤ 201 }
    ensures reads { Reads (spec.block_statement shallow depth (spec.statements shallow depth) at nesting (lexemes tokens.now)) result }
{
    let (statements, tokens) = block(alloc, depth, nesting, tokens)?;
    let statement = Boxed::new(alloc, Statement::Block(at, statements))?;
    Ok((statement, nesting, tokens))
}

/// What stands behind the first statement of an `if`.
#[tactic(auto, unfolding(crate::specs::Statements::else_branch))]
#[cycle(statements)]
fn else_branch(
    alloc: Global,
    depth: usize,
    nesting: u32,
    tokens: &[Token],
) -> Result<(Option<Boxed<Statement>>, &[Token]), Fault>
    ensures reads { ReadsAt nesting (spec.else_branch shallow (spec.statements shallow depth) nesting (lexemes tokens.now)) result }
{
    match peek(tokens) {
        Sign::Else => {
            let tokens = eat(nesting, tokens)?;
            let (statement, tokens) = statement(alloc, depth, nesting, tokens)?;
            Ok((Some(statement), tokens))
        }
        _ => Ok((None, tokens)),
    }
}

#[tactic(auto, unfolding(crate::specs::Statements::if_statement))]
#[cycle(statements)]
fn if_statement(
    alloc: Global,
    depth: usize,
    at: At,
    nesting: u32,
    tokens: &[Token],
) -> Result<(Boxed<Statement>, u32, &[Token]), Fault>
    requires { nesting ≤ 201 }
    ensures reads { Reads (spec.if_statement shallow depth (spec.statements shallow depth) at nesting (lexemes tokens.now)) result }
{
    let tokens = eat(nesting, tokens)?;
    let (test, nesting, tokens) = condition(alloc, depth, nesting, tokens)?;
    let (then, tokens) = statement(alloc, depth, nesting, tokens)?;
    let (other, tokens) = else_branch(alloc, depth, nesting, tokens)?;
    let statement = Boxed::new(alloc, Statement::If(at, test.into_inner(), then, other))?;
    Ok((statement, nesting, tokens))
}

#[tactic(auto, unfolding(crate::specs::Statements::while_statement))]
#[cycle(statements)]
fn while_statement(
    alloc: Global,
    depth: usize,
    at: At,
    nesting: u32,
    tokens: &[Token],
) -> Result<(Boxed<Statement>, u32, &[Token]), Fault>
    requires { nesting ≤ 201 }
    ensures reads { Reads (spec.while_statement shallow depth (spec.statements shallow depth) at nesting (lexemes tokens.now)) result }
{
    let tokens = eat(nesting, tokens)?;
    let (test, nesting, tokens) = condition(alloc, depth, nesting, tokens)?;
    let (body, tokens) = statement(alloc, depth, nesting, tokens)?;
    let statement = Boxed::new(alloc, Statement::While(at, test.into_inner(), body))?;
    Ok((statement, nesting, tokens))
}

#[tactic(auto, unfolding(crate::specs::Statements::do_statement))]
#[cycle(statements)]
fn do_statement(
    alloc: Global,
    depth: usize,
    at: At,
    nesting: u32,
    tokens: &[Token],
) -> Result<(Boxed<Statement>, u32, &[Token]), Fault>
    requires { nesting ≤ 201 }
    ensures reads { Reads (spec.do_statement shallow depth (spec.statements shallow depth) at nesting (lexemes tokens.now)) result }
{
    let tokens = eat(nesting, tokens)?;
    let (body, tokens) = statement(alloc, depth, nesting, tokens)?;
    let (test, nesting, tokens) = do_end(alloc, depth, nesting, tokens)?;
    let statement = Boxed::new(alloc, Statement::DoWhile(at, body, test.into_inner()))?;
    Ok((statement, nesting, tokens))
}

#[tactic(auto, unfolding(crate::specs::Statements::for_statement))]
#[cycle(statements)]
fn for_statement(
    alloc: Global,
    depth: usize,
    at: At,
    nesting: u32,
    tokens: &[Token],
) -> Result<(Boxed<Statement>, u32, &[Token]), Fault>
    requires { nesting ≤ 201 }
    ensures reads { Reads (spec.for_statement shallow depth (spec.statements shallow depth) at nesting (lexemes tokens.now)) result }
{
    let ((start, test, step), nesting, tokens) = for_header(alloc, depth, nesting, tokens)?;
    let (body, tokens) = statement(alloc, depth, nesting, tokens)?;
    let statement = Boxed::new(
        alloc,
        Statement::For(at, start.into_inner(), unboxed(test), unboxed(step), body),
    )?;
    Ok((statement, nesting, tokens))
}

#[tactic(auto, unfolding(crate::specs::Statements::switch_statement))]
#[cycle(statements)]
fn switch_statement(
    alloc: Global,
    depth: usize,
    at: At,
    nesting: u32,
    tokens: &[Token],
) -> Result<(Boxed<Statement>, u32, &[Token]), Fault>
    requires { nesting ≤ 201 }
    ensures reads { Reads (spec.switch_statement shallow depth (spec.statements shallow depth) at nesting (lexemes tokens.now)) result }
{
    let tokens = eat(nesting, tokens)?;
    let (e, nesting, tokens) = condition(alloc, depth, nesting, tokens)?;
    let (statements, tokens) = block(alloc, depth, nesting, tokens)?;
    let statement = Boxed::new(alloc, Statement::Switch(at, e.into_inner(), statements))?;
    Ok((statement, nesting, tokens))
}

#[tactic(auto, unfolding(crate::specs::Statements::case_statement))]
#[cycle(statements)]
fn case_statement(
    alloc: Global,
    depth: usize,
    at: At,
    nesting: u32,
    tokens: &[Token],
) -> Result<(Boxed<Statement>, u32, &[Token]), Fault>
    requires { nesting ≤ 201 }
    ensures reads { Reads (spec.case_statement shallow depth (spec.statements shallow depth) at nesting (lexemes tokens.now)) result }
{
    let (value, tokens) = case_label(alloc, depth, nesting, tokens)?;
    let (body, tokens) = statement(alloc, depth, nesting, tokens)?;
    let statement = Boxed::new(alloc, Statement::Case(at, value.into_inner(), body))?;
    Ok((statement, nesting, tokens))
}

#[tactic(auto, unfolding(crate::specs::Statements::default_statement))]
#[cycle(statements)]
fn default_statement(
    alloc: Global,
    depth: usize,
    at: At,
    nesting: u32,
    tokens: &[Token],
) -> Result<(Boxed<Statement>, u32, &[Token]), Fault>
    requires { nesting ≤ 201 }
    ensures reads { Reads (spec.default_statement shallow depth (spec.statements shallow depth) at nesting (lexemes tokens.now)) result }
{
    let tokens = eat(nesting, tokens)?;
    let tokens = expect(Sign::Colon, nesting, tokens)?;
    let (body, tokens) = statement(alloc, depth, nesting, tokens)?;
    let statement = Boxed::new(alloc, Statement::Default(at, body))?;
    Ok((statement, nesting, tokens))
}

/// A statement, whose first token stands there.
#[tactic(auto, unfolding(crate::specs::Statements::statement_at))]
#[cycle(statements)]
fn statement_at(
    alloc: Global,
    depth: usize,
    at: At,
    nesting: u32,
    tokens: &[Token],
) -> Result<(Boxed<Statement>, u32, &[Token]), Fault>
    requires { nesting ≤ 201 }
    ensures reads { Reads (spec.statement_at shallow depth (spec.statements shallow depth) at nesting (lexemes tokens.now)) result }
{
    match peek(tokens) {
        Sign::LeftBrace => block_statement(alloc, depth, at, nesting, tokens),
        Sign::If => if_statement(alloc, depth, at, nesting, tokens),
        Sign::While => while_statement(alloc, depth, at, nesting, tokens),
        Sign::Do => do_statement(alloc, depth, at, nesting, tokens),
        Sign::For => for_statement(alloc, depth, at, nesting, tokens),
        Sign::Switch => switch_statement(alloc, depth, at, nesting, tokens),
        Sign::Case => case_statement(alloc, depth, at, nesting, tokens),
        Sign::Default => default_statement(alloc, depth, at, nesting, tokens),
        Sign::Break => break_statement(alloc, depth, at, nesting, tokens),
        Sign::Continue => continue_statement(alloc, depth, at, nesting, tokens),
        Sign::Return => return_statement(alloc, depth, at, nesting, tokens),
        _ => expression_statement(alloc, depth, at, nesting, tokens),
    }
}

/// A phrase that counts in the nesting.
#[cycle(statements)]
fn statement(
    alloc: Global,
    depth: usize,
    nesting: u32,
    tokens: &[Token],
) -> Result<(Boxed<Statement>, &[Token]), Fault>
    requires { nesting ≤ 200 }
    ensures reads { ReadsAt nesting ((spec.statements shallow depth).one nesting (lexemes tokens.now)) result }
{
    if depth == 0 {
        return Err(Fault::Out);
    }
    let at = place(tokens);
    let (statement, _, tokens) = statement_at(alloc, depth - 1, at, nesting + 1, tokens)?;
    Ok((statement, tokens))
}

/// A statement or a declaration of a block.
#[tactic(auto, unfolding(crate::specs::Statements::block_item))]
#[cycle(statements)]
fn block_item(
    alloc: Global,
    depth: usize,
    nesting: u32,
    tokens: &[Token],
) -> Result<(Boxed<Statement>, &[Token]), Fault>
    requires { nesting ≤ 200 }
    ensures reads { ReadsAt nesting (spec.block_item shallow depth (spec.statements shallow depth) nesting (lexemes tokens.now)) result }
{
    if begins_declaration(peek(tokens)) {
        let (declaration, tokens) = declaration(alloc, depth, nesting, tokens)?;
        let item = Boxed::new(alloc, Statement::Declared(declaration.into_inner()))?;
        return Ok((item, tokens));
    }
    statement(alloc, depth, nesting, tokens)
}

/// The statements of a block, behind its opening brace.
#[cycle(statements)]
fn statements(
    alloc: Global,
    mut depth: usize,
    nesting: u32,
    tokens: &[Token],
) -> Result<(Items<Statement>, &[Token]), Fault>
    requires { nesting ≤ 200 }
    ensures reads { ReadsAt nesting ((spec.statements shallow depth).rest [] nesting (lexemes tokens.now)) result }
{
    let mut statements = Items::new(alloc);
    let mut rest = tokens;
    while depth > 0 {
        depth -= 1;
        if peek(rest) == Sign::RightBrace {
            let behind = eat(nesting, rest)?;
            return Ok((statements, behind));
        }
        let (item, behind) = block_item(alloc, depth, nesting, rest)?;
        push(&mut statements, item)?;
        rest = behind;
    }
    Err(Fault::Out)
}

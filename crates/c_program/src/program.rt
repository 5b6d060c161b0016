//! The reading of whole programs (C11 6.9).

ghost use Rattle.std.specs.Prelude.{◌≡◌, ◌≤◌, ◌+◌, ◌*◌, [], length};
ghost use Rattle.c_grammar.specs.Words.{lexemes};
ghost use Rattle.c_program.specs.Statements as spec;
ghost use Rattle.c_reading.specs.Ahead.{Answers, NotOut, ReadsAt, shallow};

use crate::statements::block;
use c_declarations::{Opening, open_declaration};
use c_grammar::Sign;
use c_reading::{Fault, eat, expect, peek, place, push};
use c_tree::Token;
use c_tree::syntax::{Declaration, External, Syntax};
use sqlite_items::{Boxed, Items};
use std::alloc::Global;

/// What stands behind the opening of a part.
#[tactic(auto, unfolding(crate::specs::Statements::part))]
fn part(
    alloc: Global,
    depth: usize,
    opening: Boxed<Opening>,
    nesting: u32,
    tokens: &[Token],
) -> Result<(Boxed<External>, &[Token]), Fault>
    requires { nesting ≤ 200 }
    ensures reads { ReadsAt nesting (spec.part shallow depth opening nesting (lexemes tokens.now)) result }
{
    match opening.into_inner() {
        Opening::Objects(declaration) => {
            let part = Boxed::new(alloc, External::Declared(declaration.into_inner()))?;
            Ok((part, tokens))
        }
        Opening::Function(at, gives, name, parameters) => {
            if peek(tokens) == Sign::LeftBrace {
                let brace = place(tokens);
                let (body, tokens) = block(alloc, depth, nesting, tokens)?;
                let part = External::Defined {
                    at,
                    gives,
                    name,
                    parameters,
                    brace,
                    body,
                };
                return Ok((Boxed::new(alloc, part)?, tokens));
            }
            let tokens = expect(Sign::Semicolon, nesting, tokens)?;
            let declaration = Declaration::Function(at, gives, name, parameters);
            let part = Boxed::new(alloc, External::Declared(declaration))?;
            Ok((part, tokens))
        }
    }
}

#[tactic(auto, unfolding(crate::specs::Statements::external))]
fn external(
    alloc: Global,
    depth: usize,
    nesting: u32,
    tokens: &[Token],
) -> Result<(Boxed<External>, &[Token]), Fault>
    requires { nesting ≤ 200 }
    ensures reads { ReadsAt nesting (spec.external shallow depth nesting (lexemes tokens.now)) result }
{
    match peek(tokens) {
        Sign::Include => {
            let at = place(tokens);
            let tokens = eat(nesting, tokens)?;
            Ok((Boxed::new(alloc, External::Include(at))?, tokens))
        }
        _ => {
            let (opening, tokens) = open_declaration(alloc, depth, nesting, tokens)?;
            part(alloc, depth, opening, nesting, tokens)
        }
    }
}

/// The program, and the tokens from the end on.
#[tactic(auto, unfolding(crate::specs::Statements::parts))]
pub fn parts(
    alloc: Global,
    mut depth: usize,
    nesting: u32,
    tokens: &[Token],
) -> Result<(Syntax, &[Token]), Fault>
    requires { nesting ≤ 200 }
    ensures reads { ReadsAt nesting (spec.parts shallow depth [] nesting (lexemes tokens.now)) result }
{
    let mut parts = Items::new(alloc);
    let mut rest = tokens;
    while depth > 0 {
        depth -= 1;
        if peek(rest) == Sign::End {
            let end = place(rest);
            return Ok((Syntax { parts, end }, rest));
        }
        let (part, behind) = external(alloc, depth, nesting, rest)?;
        push(&mut parts, part)?;
        rest = behind;
    }
    Err(Fault::Out)
}

/// The tree of a program. The tokens end with the end of the text, which stands nowhere else.
pub fn read(alloc: Global, tokens: &[Token]) -> Result<Syntax, Fault>
    ensures reads { Answers (spec.program shallow (8 * length tokens.now + 16) (lexemes tokens.now)) result }
    ensures ends { NotOut result }
{
    match parts(alloc, 8 * tokens.len() + 16, 0, tokens) {
        Ok((tree, _)) => Ok(tree),
        Err(fault) => Err(fault),
    }
}

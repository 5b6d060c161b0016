//! Whole programs.

ghost use Rattle.std.specs.Prelude.{ℕ, ◌≡◌, ◌≤◌, ◌<◌, ◌-◌, IfOk, IfErr, length, get_or};
ghost use Rattle.c_tree.specs.declared.syntax.Syntax.{Syntax as SyntaxTree};
ghost use Rattle.c_tree.specs.declared.token.Token.{Token as AToken};
ghost use Rattle.c_grammar.specs.Words.{lexemes};
ghost use Rattle.c_grammar.specs.Spelling.{Ended, Spelled};
ghost use Rattle.c_parser.specs.Answers.{Finds, Refuses, reason_of};

use c_program::read;
use c_reading::Fault;
use c_tree::{CFault, Syntax, Token};
use std::alloc::Global;
use vp_io::Reason;

/// The reason at the token from which on so many are left.
fn reason(tokens: &[Token], left: usize, rule: u8) -> Reason
    requires some { (0 < left) }
    requires within { left ≤ length tokens.now }
    ensures { (d : AToken) → result ≡ reason_of rule (get_or tokens.now (length tokens.now - left) d).at }
{
    let at = tokens[tokens.len() - left].at;
    Reason {
        line: at.line,
        column: at.column,
        rule,
        detail: 0,
    }
}

/// The tree that tokens spell (C11 6.5 to 6.9). Tokens without one are refused at the first token
/// that continues no program, or that stands deeper than 200.
pub fn parse(alloc: Global, tokens: &Vec<Token>) -> Result<Syntax, CFault>
    requires { Ended (lexemes tokens.now.items) }
    ensures found { IfOk result (λ tree. Spelled (lexemes tokens.now.items) tree) }
    ensures only { (tree : SyntaxTree) → Spelled (lexemes tokens.now.items) tree → Finds tree result }
    ensures refused { IfErr result (Refuses (lexemes tokens.now.items)) }
{
    let tokens = tokens.as_slice();
    match read(alloc, tokens) {
        Ok(tree) => Ok(tree),
        Err(Fault::Wrong(left)) => Err(CFault::Bad(reason(tokens, left, 5))),
        Err(Fault::Deep(left)) => Err(CFault::Bad(reason(tokens, left, 6))),
        Err(Fault::NoMemory) => Err(CFault::NoMemory),
        Err(Fault::Out) => unreachable!(),
    }
}

//! Whole texts.

ghost use Rattle.std.specs.Prelude.{◌≤◌, IfOk, IfErr, length};
ghost use Rattle.c_source.specs.Source.{Refuses, SpellsTree};

use c_lexer::lex;
use c_parser::parse;
use c_tree::{CFault, Syntax};
use std::alloc::Global;

/// The tree of a source. The rules of the tokens come before those of the grammar, wherever in the
/// text they are broken.
pub fn tree_of(alloc: Global, text: &[u8]) -> Result<Syntax, CFault>
    requires { length text.now ≤ 4294967294 }
    ensures found { IfOk result (SpellsTree text.now) }
    ensures refused { IfErr result (Refuses text.now) }
{
    match lex(alloc, text) {
        Ok(tokens) => parse(alloc, &tokens),
        Err(fault) => Err(fault),
    }
}

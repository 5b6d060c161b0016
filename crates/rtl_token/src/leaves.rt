//! The leaves of holes.

ghost use Rattle.std.specs.Prelude.{◌≡◌};
ghost use Rattle.std.specs.Option.{option_map};
ghost use Rattle.rtl_tree.specs.Trees.{tree_of};
ghost use Rattle.rtl_spelling.specs.Holes.{leaf_named};
ghost use Rattle.rtl_spelling.specs.Reading;
ghost use Rattle.rtl_token.specs.Seen.{context_of, token_of};

use crate::context::Context;
use crate::token::Token;
use rtl_spelling::OpenHole;
use rtl_tree::Expr;

fn leaf_named<'h>(holes: &'h [OpenHole], name: &[u8]) -> Option<&'h Expr>
    ensures { option_map (λ e. tree_of e.now) result ≡ leaf_named holes.now name.now }
{
    for hole in holes {
        if hole.name.as_slice() == name {
            return Some(&hole.leaf);
        }
    }
    None
}

/// The leaf of an open hole that is named so.
pub fn leaf_at<'c>(c: &Context<'c>, token: Token<'_>) -> Option<&'c Expr>
    ensures { option_map (λ e. tree_of e.now) result ≡ Reading.leaf_at (context_of c.now) (token_of token.entry) }
{
    match token {
        Token::Word(name) => leaf_named(c.holes, name),
        _ => None,
    }
}

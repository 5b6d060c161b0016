//! The reading of trees with holes.

ghost use Rattle.std.specs.Prelude.{◌≡◌, ◌↔◌, ◌≤◌, [], ◌∷◌, length, IfOk, IsErrOf, IsTrue};
ghost use Rattle.rtl_word.specs.Words.{IsWordSize};
ghost use Rattle.rtl_tree.specs.Trees.{Tree, tree_of};
ghost use Rattle.rtl_spelling.specs.Tokens.{Mark};
ghost use Rattle.rtl_text.specs.Seen.{tokens_of};
ghost use Rattle.md_text.specs.Forms.{OpenTree as Meant, SpellsTree, context};
ghost use Rattle.md_open.specs.WholeTrees.{IsWholeTree};

use crate::fault::OpenFault;
use crate::holes::{names_of_holes, open_holes};
use crate::labels::has_no_label;
use crate::lexemes::lexemes;
use crate::names::no_names;
use md_forms::OpenTree;
use rtl_text::{Context, Sign, Token, Trouble, tree};
use rtl_tree::Expr;
use sqlite_items::Items;
use std::alloc::Global;

/// How many trees may stand one in the other.
const ROOM: u32 = 32;

/// Whether the end alone is left.
fn is_end(tokens: &[Token<'_>]) -> bool
    ensures { IsTrue result ↔ (tokens_of tokens.now ≡ Mark Sign.End ∷ []) }
{
    match tokens {
        [Token::Mark(sign)] => *sign == Sign::End,
        _ => false,
    }
}

/// The tree that the tokens spell, where these are the names of its holes.
fn spelled_tree(
    alloc: Global,
    bits: u32,
    tokens: &[Token<'_>],
    names: &[Items<u8>],
) -> Result<Expr, OpenFault>
    requires size { IsWordSize bits }
    requires few { length names.now ≤ 256 }
    ensures found { IfOk result (λ t. IsWholeTree (context bits names.now) (tree_of t) (tokens_of tokens.now)) }
    ensures refused { IsErrOf result OpenFault.NoForm → (t : Tree) → IsWholeTree (context bits names.now) t (tokens_of tokens.now) → ⊥ }
{
    let holes = open_holes(alloc, names)?;
    let empty = no_names(alloc);
    let c = Context {
        bits,
        names: &empty,
        holes: holes.as_slice(),
    };
    match tree(alloc, &c, ROOM, tokens) {
        Ok((tree, rest)) => {
            if is_end(rest) {
                Ok(tree)
            } else {
                Err(OpenFault::NoForm)
            }
        }
        Err(Trouble::NoMemory) => Err(OpenFault::NoMemory),
        Err(Trouble::Wrong(_)) => Err(OpenFault::NoForm),
        Err(Trouble::Deep(_)) => Err(OpenFault::NoForm),
    }
}

/// The tree with holes that a whole text spells on words of so many bits; the numbers are the signed readings of words.
pub fn open_tree(alloc: Global, bits: u32, text: &[u8]) -> Result<OpenTree, OpenFault>
    requires size { IsWordSize bits }
    requires short { length text.now ≤ 255 }
    ensures found { IfOk result (λ tree. SpellsTree bits text.now tree) }
    ensures refused { IsErrOf result OpenFault.NoForm → (tree : Meant) → SpellsTree bits text.now tree → ⊥ }
{
    let tokens = match lexemes(alloc, text) {
        Ok(tokens) => tokens,
        Err(fault) => return Err(fault),
    };
    let names = names_of_holes(alloc, tokens.as_slice())?;
    let tree = match spelled_tree(alloc, bits, tokens.as_slice(), names.as_slice()) {
        Ok(tree) => tree,
        Err(fault) => return Err(fault),
    };
    if has_no_label(&tree) {
        Ok(OpenTree { names, tree })
    } else {
        Err(OpenFault::NoForm)
    }
}

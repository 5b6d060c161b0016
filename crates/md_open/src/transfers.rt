//! The reading of transfers with holes.

ghost use Rattle.std.specs.Prelude.{◌≡◌, ◌≤◌, [], List, length, IfOk, IsErrOf};
ghost use Rattle.rtl_word.specs.Words.{IsWordSize};
ghost use Rattle.rtl_spelling.specs.Law.{IsEnded};
ghost use Rattle.rtl_spelling.specs.Reading;
ghost use Rattle.rtl_spelling.specs.Spelling.{Said as Spelled, IsSpelled};
ghost use Rattle.rtl_token.specs.Gives.{Gives};
ghost use Rattle.rtl_text.specs.Seen.{context_of, tokens_of};
ghost use Rattle.md_text.specs.Forms.{OpenTransfer as Meant, SpellsMoves, context};
ghost use Rattle.md_open.specs.Said.{adds};

use crate::fault::OpenFault;
use crate::holes::{names_of_holes, open_holes};
use crate::labels::have_no_label;
use crate::lexemes::lexemes;
use crate::names::no_names;
use md_forms::{OpenTransfer, Said};
use rtl_text::{Context, Token, Trouble, item};
use sqlite_items::Items;
use std::alloc::Global;

/// The assignments that the tokens spell, up to the end.
fn read_moves(alloc: Global, c: &Context<'_>, tokens: &[Token<'_>]) -> Result<Items<Said>, Trouble>
    requires { IsWordSize c.now.bits }
    ensures { Gives (λ moves. moves) result (adds [] (Reading.transfer (context_of c.now) 31 (tokens_of tokens.now))) }
{
    let mut moves = Items::new(alloc);
    let (_, mut rest) = tokens.split_at(0);
    for _ in 0..tokens.len() {
        let (assignment, is_last, behind) = item(alloc, c, rest)?;
        let said = Said {
            to: assignment.to,
            value: assignment.value,
        };
        let Ok(()) = moves.push(said) else {
            return Err(Trouble::NoMemory);
        };
        if is_last {
            return Ok(moves);
        }
        rest = behind;
    }
    Err(Trouble::Wrong(rest.len()))
}

/// The assignments that the tokens spell, where these are the names of their holes.
fn spelled_moves(
    alloc: Global,
    bits: u32,
    tokens: &[Token<'_>],
    names: &[Items<u8>],
) -> Result<Items<Said>, OpenFault>
    requires size { IsWordSize bits }
    requires ended { IsEnded (tokens_of tokens.now) }
    requires few { length names.now ≤ 256 }
    ensures found { IfOk result (λ moves. IsSpelled (context bits names.now) moves (tokens_of tokens.now)) }
    ensures refused { IsErrOf result OpenFault.NoForm → (moves : List Spelled) → IsSpelled (context bits names.now) moves (tokens_of tokens.now) → ⊥ }
{
    let holes = open_holes(alloc, names)?;
    let empty = no_names(alloc);
    let c = Context {
        bits,
        names: &empty,
        holes: holes.as_slice(),
    };
    match read_moves(alloc, &c, tokens) {
        Ok(moves) => Ok(moves),
        Err(Trouble::NoMemory) => Err(OpenFault::NoMemory),
        Err(Trouble::Wrong(_)) => Err(OpenFault::NoForm),
        Err(Trouble::Deep(_)) => Err(OpenFault::NoForm),
    }
}

/// The transfer with holes that a whole text spells on words of so many bits; the numbers are the signed readings of words.
pub fn open_transfer(alloc: Global, bits: u32, text: &[u8]) -> Result<OpenTransfer, OpenFault>
    requires size { IsWordSize bits }
    requires short { length text.now ≤ 255 }
    ensures found { IfOk result (λ transfer. SpellsMoves bits text.now transfer) }
    ensures refused { IsErrOf result OpenFault.NoForm → (transfer : Meant) → SpellsMoves bits text.now transfer → ⊥ }
{
    let tokens = match lexemes(alloc, text) {
        Ok(tokens) => tokens,
        Err(fault) => return Err(fault),
    };
    let names = names_of_holes(alloc, tokens.as_slice())?;
    let moves = match spelled_moves(alloc, bits, tokens.as_slice(), names.as_slice()) {
        Ok(moves) => moves,
        Err(fault) => return Err(fault),
    };
    if have_no_label(moves.as_slice()) {
        Ok(OpenTransfer { names, moves })
    } else {
        Err(OpenFault::NoForm)
    }
}

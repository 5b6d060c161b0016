//! The printing of transfers.

ghost use Rattle.std.specs.Prelude.{◌≡◌, ◌∷◌, ◌++◌, [], OnOk, if◌then◌else◌, is_ok};
ghost use Rattle.rtl_word.specs.Words.{IsWordSize};
ghost use Rattle.rtl_tree.specs.Moves.{goal_of};
ghost use Rattle.rtl_tree.specs.WellFormed.{IsWellFormed};
ghost use Rattle.rtl_spelling.specs.Tokens.{Mark};
ghost use Rattle.rtl_spelling.specs.Printing.{IsPrintable, IsPrintableGoal, IsPrintableTree, goal_tokens, move_tokens, text_of, tokens_behind, tokens_of};
ghost use Rattle.rtl_print.specs.Appending.{Appends};
ghost use Rattle.rtl_print.specs.Seen.{context_of, printing_context};

use crate::context::Context;
use crate::trees::{push_cell, push_memory, push_sign, push_tree};
use rtl_spelling::Sign;
use rtl_tree::{Assign, Effects, Names, NoMemory, Place};
use rtl_word::Word;
use std::alloc::{AllocError, Global};

fn push_place(out: &mut Vec<u8>, c: &Context<'_>, place: &Place) -> Result<(), AllocError>
    requires size { IsWordSize c.now.bits }
    requires printable { IsPrintableGoal (context_of c.now) (goal_of place.now) }
    ensures { OnOk result (Appends out.old.items out.new.items (goal_tokens (context_of c.now) (goal_of place.now))) }
{
    match place {
        Place::Cell(cell) => push_cell(out, *cell),
        Place::Mem(width, address) => push_memory(out, c, *width, address),
    }
}

fn push_becomes(out: &mut Vec<u8>) -> Result<(), AllocError>
    ensures { OnOk result (Appends out.old.items out.new.items (Mark Sign.Space ∷ Mark Sign.Equals ∷ Mark Sign.Space ∷ [])) }
{
    push_sign(out, Sign::Space)?;
    push_sign(out, Sign::Equals)?;
    push_sign(out, Sign::Space)
}

fn push_move(out: &mut Vec<u8>, c: &Context<'_>, m: &Assign) -> Result<(), AllocError>
    requires size { IsWordSize c.now.bits }
    requires place { IsPrintableGoal (context_of c.now) m.now.to }
    requires value { IsPrintableTree (context_of c.now) m.now.value }
    ensures { OnOk result (Appends out.old.items out.new.items (move_tokens (context_of c.now) m.now)) }
{
    push_place(out, c, &m.to)?;
    push_becomes(out)?;
    push_tree(out, c, &m.value)
}

fn push_behind(out: &mut Vec<u8>, c: &Context<'_>, list: &[Assign]) -> Result<(), AllocError>
    requires size { IsWordSize c.now.bits }
    requires printable { IsPrintable (context_of c.now) list.now }
    ensures { OnOk result (Appends out.old.items out.new.items (tokens_behind (context_of c.now) list.now)) }
{
    for m in list {
        push_sign(out, Sign::Semicolon)?;
        push_sign(out, Sign::Space)?;
        push_move(out, c, m)?;
    }
    Ok(())
}

fn push_moves(out: &mut Vec<u8>, c: &Context<'_>, list: &[Assign]) -> Result<(), AllocError>
    requires size { IsWordSize c.now.bits }
    requires printable { IsPrintable (context_of c.now) list.now }
    ensures { OnOk result (Appends out.old.items out.new.items (tokens_of (context_of c.now) list.now)) }
{
    match list {
        [] => Ok(()),
        [first, behind @ ..] => {
            push_move(out, c, first)?;
            push_behind(out, c, behind)
        }
    }
}

/// Appends the spelling of a transfer. Where there is no memory the bytes stay as they were.
pub fn print_transfer<W: Word>(
    alloc: Global,
    e: &Effects,
    n: &Names,
    out: &mut Vec<u8>,
) -> Result<(), NoMemory>
    requires well_formed { IsWellFormed e.now }
    requires printable { IsPrintable (printing_context W.BITS n.now) e.now }
    ensures { out.new.items ≡ (if is_ok result then out.old.items ++ text_of (printing_context W.BITS n.now) e.now else out.old.items) }
{
    let c = Context {
        bits: W::BITS,
        names: n,
    };
    let mut text = Vec::new(alloc);
    push_moves(&mut text, &c, e.list.as_slice())?;
    out.extend_from_slice(&text)?;
    Ok(())
}

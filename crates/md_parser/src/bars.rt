//! The lines of rows and modes.

ghost use Rattle.std.specs.Prelude.{◌≡◌, ◌≤◌, ℕ, List, length, map, IfOk, IfSome, IfNone, IsErrOf};
ghost use Rattle.rtl_word.specs.Words.{IsWordSize};
ghost use Rattle.md_text.specs.Pieces.{Piece as Shown, SpellsText};
ghost use Rattle.md_text.specs.Forms.{OpenTree as MeantTree, OpenTransfer as MeantTransfer, SpellsTree, SpellsMoves, HasForm, IsModeLine, IsRowLine};
ghost use Rattle.md_forms.specs.Seen.{form_of, pieces_of};
ghost use Rattle.md_parser.specs.Bars.{HasRowParts, HasModeParts};

use crate::fault::FormFault;
use crate::owned::owned_pieces;
use md_forms::{Form, OpenTransfer, OpenTree, Piece};
use md_lines::{PieceFault, after_word, is_name, read_pieces, split_at_bar};
use md_open::{OpenFault, open_transfer, open_tree};
use sqlite_items::Items;
use std::alloc::Global;

/// What a row's line shows, and what it means.
fn row_parts(line: &[u8]) -> Option<(&[u8], &[u8])>
    ensures found { IfSome result (λ parts. HasRowParts line.now parts.0.now parts.1.now) }
    ensures none { IfNone result ((shown meant : List ℕ) → HasRowParts line.now shown meant → ⊥) }
{
    let rest = after_word(line, b"row ")?;
    split_at_bar(rest)
}

/// The name of a mode's line, what it shows, and what it means.
fn mode_parts(line: &[u8]) -> Option<(&[u8], &[u8], &[u8])>
    ensures found { IfSome result (λ parts. HasModeParts line.now parts.0.now parts.1.now parts.2.now) }
    ensures none { IfNone result ((name shown meant : List ℕ) → HasModeParts line.now name shown meant → ⊥) }
{
    let rest = after_word(line, b"mode ")?;
    let (name, rest) = split_at_bar(rest)?;
    let (shown, meant) = split_at_bar(rest)?;
    if is_name(name) {
        Some((name, shown, meant))
    } else {
        None
    }
}

/// The pieces of what is shown.
fn shown_pieces(alloc: Global, shown: &[u8]) -> Result<Items<Piece>, FormFault>
    ensures found { IfOk result (λ pieces. SpellsText shown.now (pieces_of pieces)) }
    ensures refused { IsErrOf result FormFault.NoForm → (pieces : List Shown) → SpellsText shown.now pieces → ⊥ }
{
    let pieces = match read_pieces(alloc, shown) {
        Ok(pieces) => pieces,
        Err(PieceFault::NoMemory) => return Err(FormFault::NoMemory),
        Err(PieceFault::NoText) => return Err(FormFault::NoForm),
    };
    let pieces = owned_pieces(alloc, pieces.as_slice())?;
    Ok(pieces)
}

/// The transfer that is meant.
fn meant_transfer(alloc: Global, bits: u32, meant: &[u8]) -> Result<OpenTransfer, FormFault>
    requires size { IsWordSize bits }
    requires short { length meant.now ≤ 255 }
    ensures found { IfOk result (λ transfer. SpellsMoves bits meant.now transfer) }
    ensures refused { IsErrOf result FormFault.NoForm → (transfer : MeantTransfer) → SpellsMoves bits meant.now transfer → ⊥ }
{
    match open_transfer(alloc, bits, meant) {
        Ok(transfer) => Ok(transfer),
        Err(OpenFault::NoMemory) => Err(FormFault::NoMemory),
        Err(OpenFault::NoForm) => Err(FormFault::NoForm),
    }
}

/// The tree that is meant.
fn meant_tree(alloc: Global, bits: u32, meant: &[u8]) -> Result<OpenTree, FormFault>
    requires size { IsWordSize bits }
    requires short { length meant.now ≤ 255 }
    ensures found { IfOk result (λ tree. SpellsTree bits meant.now tree) }
    ensures refused { IsErrOf result FormFault.NoForm → (tree : MeantTree) → SpellsTree bits meant.now tree → ⊥ }
{
    match open_tree(alloc, bits, meant) {
        Ok(tree) => Ok(tree),
        Err(OpenFault::NoMemory) => Err(FormFault::NoMemory),
        Err(OpenFault::NoForm) => Err(FormFault::NoForm),
    }
}

/// The line of a row.
pub fn row_line(alloc: Global, bits: u32, line: &[u8]) -> Result<Form, FormFault>
    requires size { IsWordSize bits }
    requires short { length line.now ≤ 255 }
    ensures found { IfOk result (λ form. HasForm bits line.now (form_of form)) }
    ensures refused { IsErrOf result FormFault.NoForm → (pieces : List Shown) (transfer : MeantTransfer) → IsRowLine bits line.now pieces transfer → ⊥ }
{
    let Some((shown, meant)) = row_parts(line) else {
        return Err(FormFault::NoForm);
    };
    let text = match shown_pieces(alloc, shown) {
        Ok(text) => text,
        Err(fault) => return Err(fault),
    };
    let transfer = match meant_transfer(alloc, bits, meant) {
        Ok(transfer) => transfer,
        Err(fault) => return Err(fault),
    };
    Ok(Form::RowLine { text, transfer })
}

/// The line of an alternative of a mode.
pub fn mode_line(alloc: Global, bits: u32, line: &[u8]) -> Result<Form, FormFault>
    requires size { IsWordSize bits }
    requires short { length line.now ≤ 255 }
    ensures found { IfOk result (λ form. HasForm bits line.now (form_of form)) }
    ensures refused { IsErrOf result FormFault.NoForm → (name : List ℕ) (pieces : List Shown) (tree : MeantTree) → IsModeLine bits line.now name pieces tree → ⊥ }
{
    let Some((name, shown, meant)) = mode_parts(line) else {
        return Err(FormFault::NoForm);
    };
    let text = match shown_pieces(alloc, shown) {
        Ok(text) => text,
        Err(fault) => return Err(fault),
    };
    let tree = match meant_tree(alloc, bits, meant) {
        Ok(tree) => tree,
        Err(fault) => return Err(fault),
    };
    let name = Items::from_slice(alloc, name)?;
    Ok(Form::ModeLine { name, text, tree })
}

//! A row without modes.

ghost use Rattle.std.specs.Prelude.{◌≡◌, ◌++◌, ◌≤◌, length, option_map, IfOk};
ghost use Rattle.md_text.specs.Pieces.{slots};
ghost use Rattle.md_text.specs.Expansion.{replaced, expanded, transfer_with};
ghost use Rattle.md_forms.specs.Seen.{pieces_of};
ghost use Rattle.md_expand.specs.Seen.{all_shown};
ghost use Rattle.md_expand.specs.Filled.{BothAllFilled};
ghost use Rattle.md_expand.specs.Expanded.{IsExpanded};
ghost use Rattle.md_expand.specs.Scope.{filling_in, fillings_in, hole_total_in, row_holes};

use crate::meanings::row_leaves;
use crate::modes::Filling;
use crate::moves::{Filled, filled_moves};
use crate::scope::Scope;
use crate::shown::{Shown, push_shown, show_piece};
use md_forms::{OpenTransfer, Piece};
use rtl_tree::NoMemory;
use std::alloc::Global;

/// A row without modes. It has no transfer where something would be assigned that is no place, such as a number.
#[derive(Debug, Drop)]
pub struct Expanded {
    pub line: u32,
    pub text: Vec<Shown>,
    pub transfer: Option<Vec<Filled>>,
}

fn push_filling(
    alloc: Global,
    scope: &Scope<'_>,
    filling: &Filling<'_>,
    mut text: Vec<Shown>,
) -> Result<Vec<Shown>, NoMemory>
    ensures { IfOk result (λ more.
        all_shown more.items ≡ all_shown text.items ++ (filling_in scope.now filling.now).text) }
{
    match filling {
        Filling::Itself(hole) => text.push(Shown::Vacant(*hole))?,
        Filling::Alternative { text: pieces, .. } => {
            push_shown(alloc, scope, pieces, &mut text)?;
        }
    }
    Ok(text)
}

/// The text of a row behind what stands there, with fillings in place of its holes.
fn push_replaced(
    alloc: Global,
    scope: &Scope<'_>,
    pieces: &[Piece],
    chosen: &[Filling<'_>],
    mut text: Vec<Shown>,
) -> Result<Vec<Shown>, NoMemory>
    ensures { IfOk result (λ more. all_shown more.items
        ≡ all_shown text.items ++ replaced (pieces_of pieces.now) (fillings_in scope.now chosen.now)) }
{
    match pieces {
        [] => Ok(text),
        [Piece::Hole(_), rest @ ..] => match chosen {
            [] => Ok(text),
            [filling, others @ ..] => {
                let text = push_filling(alloc, scope, filling, text)?;
                push_replaced(alloc, scope, rest, others, text)
            }
        },
        [piece, rest @ ..] => {
            text.push(show_piece(alloc, scope, piece)?)?;
            push_replaced(alloc, scope, rest, chosen, text)
        }
    }
}

fn transfer_with(
    alloc: Global,
    scope: &Scope<'_>,
    text: &[Piece],
    transfer: &OpenTransfer,
    chosen: &[Filling<'_>],
) -> Result<Option<Vec<Filled>>, NoMemory>
    ensures { IfOk result (λ fs. BothAllFilled (hole_total_in scope.now chosen.now ≤ 256)
        (transfer_with (row_holes scope.now 0 text.now chosen.now) transfer.now)
        (option_map (λ v. v.items) fs)) }
{
    let leaves = row_leaves(alloc, scope, text, chosen, transfer.names.as_slice())?;
    filled_moves(alloc, &leaves, transfer.moves.as_slice())
}

/// The row with these fillings in place of its holes.
pub fn expand_row(
    alloc: Global,
    scope: &Scope<'_>,
    line: u32,
    text: &[Piece],
    transfer: &OpenTransfer,
    chosen: &[Filling<'_>],
) -> Result<Expanded, NoMemory>
    requires { length chosen.now ≡ length (slots (pieces_of text.now)) }
    ensures { IfOk result (IsExpanded
        (expanded line (pieces_of text.now) transfer.now (fillings_in scope.now chosen.now))) }
{
    let shown = push_replaced(alloc, scope, text, chosen, Vec::new(alloc))?;
    let transfer = transfer_with(alloc, scope, text, transfer, chosen)?;
    Ok(Expanded {
        line,
        text: shown,
        transfer,
    })
}

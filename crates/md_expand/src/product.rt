//! All rows without modes.

ghost use Rattle.std.specs.Prelude.{◌≡◌, ◌++◌, ◌∷◌, ◌+◌, ◌<◌, ◌≤◌, [], suc, take, length, IfOk};
ghost use Rattle.md_text.specs.Pieces.{slots};
ghost use Rattle.md_text.specs.Expansion.{expansions};
ghost use Rattle.md_forms.specs.Seen.{slot_of, pieces_of, form_of, declarations_of};
ghost use Rattle.md_expand.specs.Expanded.{AllExpanded};
ghost use Rattle.md_expand.specs.Product.{rows_in, expansions_in, form_of_row, AddsRows, Writes};

use crate::expanded::{Expanded, expand_row};
use crate::fillings::alternatives_for;
use crate::modes::Filling;
use crate::scope::Scope;
use crate::shown::taken_by;
use md_forms::{Declaration, Form, OpenTransfer, Piece, Slot};
use rtl_tree::NoMemory;
use std::alloc::Global;

/// A row as its line declares it.
#[derive(Clone, Copy)]
struct RowLine<'a> {
    line: u32,
    text: &'a [Piece],
    transfer: &'a OpenTransfer,
}

/// What is chosen for the first holes of a row, and the rows that are done.
#[derive(Drop)]
struct Progress<'a> {
    chosen: Vec<Filling<'a>>,
    rows: Vec<Expanded>,
}

/// Writes the rows where what is chosen and this filling stand in place of the first holes, unless there are enough rows.
#[cycle(choices)]
fn expand_filled<'a>(
    alloc: Global,
    scope: &Scope<'a>,
    row: RowLine<'_>,
    filling: Filling<'a>,
    rest: &[Piece],
    limit: usize,
    mut progress: Progress<'a>,
) -> Result<Progress<'a>, NoMemory>
    requires room { length progress.rows.items ≤ limit }
    requires slots { suc (length progress.chosen.items) + length (slots (pieces_of rest.now)) ≡ length (slots (pieces_of row.text.now)) }
    ensures { IfOk result (Writes limit
        (rows_in scope.now row.entry (progress.entry.chosen.items ++ filling.entry ∷ []) (slots (pieces_of rest.now)))
        progress.entry) }
{
    if progress.rows.len() >= limit {
        return Ok(progress);
    }
    progress.chosen.push(filling)?;
    let mut progress = expand_pieces(alloc, scope, row, rest, limit, progress)?;
    let _last = progress.chosen.pop();
    Ok(progress)
}

#[cycle(choices)]
fn expand_hole<'a>(
    alloc: Global,
    scope: &Scope<'a>,
    row: RowLine<'_>,
    slot: &Slot,
    rest: &[Piece],
    limit: usize,
    mut progress: Progress<'a>,
) -> Result<Progress<'a>, NoMemory>
    requires room { length progress.rows.items ≤ limit }
    requires slots { suc (length progress.chosen.items) + length (slots (pieces_of rest.now)) ≡ length (slots (pieces_of row.text.now)) }
    ensures { IfOk result (Writes limit
        (rows_in scope.now row.entry progress.entry.chosen.items (slot_of slot.now ∷ slots (pieces_of rest.now)))
        progress.entry) }
{
    match alternatives_for(scope, &slot.kind) {
        Some(found) => {
            for filling in found {
                progress = expand_filled(alloc, scope, row, *filling, rest, limit, progress)?;
            }
            Ok(progress)
        }
        None => {
            let itself = Filling::Itself(taken_by(scope, &slot.kind));
            expand_filled(alloc, scope, row, itself, rest, limit, progress)
        }
    }
}

/// Writes the rows where what is chosen stands in place of the first holes, one for each choice for the holes of the rest of the
/// text, until there are so many.
#[cycle(choices)]
fn expand_pieces<'a>(
    alloc: Global,
    scope: &Scope<'a>,
    row: RowLine<'_>,
    rest: &[Piece],
    limit: usize,
    mut progress: Progress<'a>,
) -> Result<Progress<'a>, NoMemory>
    requires room { length progress.rows.items < limit }
    requires slots { length progress.chosen.items + length (slots (pieces_of rest.now)) ≡ length (slots (pieces_of row.text.now)) }
    ensures { IfOk result (Writes limit
        (rows_in scope.now row.entry progress.entry.chosen.items (slots (pieces_of rest.now)))
        progress.entry) }
{
    match rest {
        [] => {
            let chosen = progress.chosen.as_slice();
            let expanded = expand_row(alloc, scope, row.line, row.text, row.transfer, chosen)?;
            progress.rows.push(expanded)?;
            Ok(progress)
        }
        [Piece::Hole(slot), rest @ ..] => {
            expand_hole(alloc, scope, row, slot, rest, limit, progress)
        }
        [_, rest @ ..] => expand_pieces(alloc, scope, row, rest, limit, progress),
    }
}

/// Writes the rows that come of a row's line, until there are so many.
fn expand_row_line(
    alloc: Global,
    scope: &Scope<'_>,
    row: RowLine<'_>,
    limit: usize,
    rows: Vec<Expanded>,
) -> Result<Vec<Expanded>, NoMemory>
    requires room { length rows.items ≤ limit }
    ensures room { IfOk result (λ more. length more.items ≤ limit) }
    ensures rows { IfOk result (λ more.
        AddsRows limit (expansions_in scope.now row.entry.line (form_of_row row.entry)) rows.items more.items) }
{
    if rows.len() == limit {
        return Ok(rows);
    }
    let progress = Progress {
        chosen: Vec::new(alloc),
        rows,
    };
    let progress = expand_pieces(alloc, scope, row, row.text, limit, progress)?;
    Ok(progress.rows)
}

/// Writes the rows that come of a line, until there are so many.
fn expand_line(
    alloc: Global,
    scope: &Scope<'_>,
    declaration: &Declaration,
    limit: usize,
    into: Vec<Expanded>,
) -> Result<Vec<Expanded>, NoMemory>
    requires room { length into.items ≤ limit }
    ensures room { IfOk result (λ more. length more.items ≤ limit) }
    ensures rows { IfOk result (λ more.
        AddsRows limit (expansions_in scope.now declaration.now.line (form_of declaration.now.form))
        into.items more.items) }
{
    match &declaration.form {
        Form::RowLine { text, transfer } => {
            let row = RowLine {
                line: declaration.line,
                text: text.as_slice(),
                transfer,
            };
            expand_row_line(alloc, scope, row, limit, into)
        }
        _ => Ok(into),
    }
}

/// The first rows without modes, at most so many.
pub fn expand(alloc: Global, scope: &Scope<'_>, limit: usize) -> Result<Vec<Expanded>, NoMemory>
    ensures { IfOk result (λ rows. AllExpanded
        (take limit (expansions scope.now.width (declarations_of scope.now.all.now))) rows.items) }
{
    let mut rows = Vec::new(alloc);
    for declaration in scope.all {
        rows = expand_line(alloc, scope, declaration, limit, rows)?;
    }
    Ok(rows)
}

//! The rows of a description.

ghost use Rattle.std.specs.Prelude.{◌≡◌, ◌+◌, ◌<◌, ◌≤◌, ◌++◌, ◌∷◌, [], List, All, length, map, IfOk};
ghost use Rattle.rtl_tree.specs.Moves.{goal_of};
ghost use Rattle.md_text.specs.Expansion.{Expanded as Expansion, holes_in};
ghost use Rattle.md_text.specs.Accepted.{pieces_from, row_of};
ghost use Rattle.md_expand.specs.Seen.{shown_of, all_shown};
ghost use Rattle.md_expand.specs.Filled.{assign_of};
ghost use Rattle.md_expand.specs.Expanded.{IsExpanded, AllExpanded};
ghost use Rattle.md_expand.specs.Limits.{IsWithinLimits};
ghost use Rattle.md_reader.specs.RowsMade.{row_with};

use md_expand::{Expanded, Filled, Shown};
use md_rows::{Hole, Piece, Row};
use rtl_tree::{Assign, Effects, NoMemory, Place, copy};
use smallvec::SmallVec;
use sqlite_items::Items;
use std::alloc::Global;

fn with_hole(mut holes: Items<Hole>, shown: &Shown) -> Result<Items<Hole>, NoMemory>
    ensures { IfOk result (λ more. more ≡ holes ++ holes_in (shown_of shown.now ∷ [])) }
{
    if let Shown::Vacant(hole) = shown {
        holes.push(*hole)?;
    }
    Ok(holes)
}

fn holes(alloc: Global, text: &[Shown]) -> Result<Items<Hole>, NoMemory>
    ensures { IfOk result (λ holes. holes ≡ holes_in (all_shown text.now)) }
{
    let mut holes = Items::new(alloc);
    for shown in text {
        holes = with_hole(holes, shown)?;
    }
    Ok(holes)
}

/// The piece that is shown, where so many holes stand before it.
fn piece(alloc: Global, shown: &Shown, number: u8) -> Result<Piece, NoMemory>
    ensures { IfOk result (λ piece. pieces_from number (shown_of shown.now ∷ []) ≡ piece ∷ []) }
{
    match shown {
        Shown::Vacant(_) => Ok(Piece::Hole(number)),
        Shown::Name(name) => Ok(Piece::Name(Items::from_slice(alloc, name.as_slice())?)),
        Shown::Number(value) => Ok(Piece::Num(*value)),
        Shown::Mark(mark) => Ok(Piece::Byte(*mark)),
    }
}

/// How many holes stand before what follows.
fn number_behind(shown: &Shown, number: u8) -> u8
    requires { number + length (holes_in (shown_of shown.now ∷ [])) ≤ 8 }
    ensures { result ≡ number + length (holes_in (shown_of shown.now ∷ [])) }
{
    match shown {
        Shown::Vacant(_) => number + 1,
        _ => number,
    }
}

fn pieces(alloc: Global, text: &[Shown]) -> Result<Items<Piece>, NoMemory>
    requires { length (holes_in (all_shown text.now)) ≤ 8 }
    ensures { IfOk result (λ pieces. pieces ≡ pieces_from 0 (all_shown text.now)) }
{
    let mut pieces = Items::new(alloc);
    let mut number = 0;
    for shown in text {
        pieces.push(piece(alloc, shown, number)?)?;
        number = number_behind(shown, number);
    }
    Ok(pieces)
}

fn copy_place(alloc: Global, place: &Place) -> Result<Place, NoMemory>
    ensures { IfOk result (λ c. goal_of c ≡ goal_of place.now) }
{
    match place {
        Place::Cell(cell) => Ok(Place::Cell(*cell)),
        Place::Mem(width, address) => Ok(Place::Mem(*width, copy(alloc, address)?)),
    }
}

fn copy_assign(alloc: Global, assign: &Assign) -> Result<Assign, NoMemory>
    ensures { IfOk result (λ c. c ≡ assign.now) }
{
    Ok(Assign {
        to: copy_place(alloc, &assign.to)?,
        value: copy(alloc, &assign.value)?,
    })
}

fn effects(alloc: Global, transfer: &[Filled]) -> Result<Effects, NoMemory>
    requires some { 0 < length transfer.now }
    requires few { length transfer.now ≤ 6 }
    ensures { IfOk result (λ e. e ≡ map assign_of transfer.now) }
{
    let mut list = SmallVec::new(alloc);
    for filled in transfer {
        list.push(copy_assign(alloc, &filled.assign)?)?;
    }
    Ok(Effects { list })
}

fn row_with(alloc: Global, row: &Expanded, transfer: &[Filled]) -> Result<Row, NoMemory>
    requires holes { length (holes_in (all_shown row.now.text.items)) ≤ 8 }
    requires some { 0 < length transfer.now }
    requires few { length transfer.now ≤ 6 }
    ensures { IfOk result (λ made. made ≡ row_with row.now transfer.now) }
{
    Ok(Row {
        line: row.line,
        text: pieces(alloc, &row.text)?,
        holes: holes(alloc, &row.text)?,
        effects: effects(alloc, transfer)?,
        normal: effects(alloc, transfer)?,
    })
}

fn row_of(alloc: Global, row: &Expanded) -> Result<Row, NoMemory>
    requires { IsWithinLimits row.now }
    ensures { IfOk result (λ made. (r : Expansion) → IsExpanded r row.now → made ≡ row_of r) }
{
    match &row.transfer {
        Some(transfer) => row_with(alloc, row, transfer),
        None => unreachable!(),
    }
}

/// The rows of a description, by the rows without modes.
pub fn rows_of(alloc: Global, rows: &[Expanded]) -> Result<Items<Row>, NoMemory>
    requires { All IsWithinLimits rows.now }
    ensures { IfOk result (λ made. (rs : List Expansion) → AllExpanded rs rows.now → made ≡ map row_of rs) }
{
    let mut made = Items::new(alloc);
    for row in rows {
        made.push(row_of(alloc, row)?)?;
    }
    Ok(made)
}

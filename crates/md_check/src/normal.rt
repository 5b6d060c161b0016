//! The normal forms of a description's rows.

ghost use Rattle.std.specs.Prelude.{◌≡◌, map, IfOk, All, slice_get, Some, ℕ};
ghost use Rattle.rtl_norm.specs.Transfers.{IsMoveFitting};
ghost use Rattle.md_rows.specs.declared.row.Row.{Row};
ghost use Rattle.md_check.specs.Accepted.{normalised, normalised_row};
ghost use Rattle.md_said.specs.Sound.{IsSoundRow};
ghost use Rattle.md_check.specs.Checking.{reversed};

use md_rows::{RawDescription, Row};
use rtl_simplify::normalise_effects;
use rtl_tree::NoMemory;
use rtl_word::Word;
use sqlite_items::Items;
use std::alloc::Global;

fn with_normal<W: Word>(mut row: Row) -> Row
    requires sound { IsSoundRow W.BITS row }
    ensures { result ≡ normalised_row W.BITS row }
{
    normalise_effects::<W>(&mut row.normal);
    row
}

// The rows with their normal forms, from the last on.
fn normalised_back<W: Word>(alloc: Global, mut rows: Items<Row>) -> Result<Items<Row>, NoMemory>
    requires sound { (i : ℕ) (row : Row) → slice_get rows i ≡ Some row → IsSoundRow W.BITS row }
    ensures { IfOk result (λ back. back ≡ reversed (map (normalised_row W.BITS) rows)) }
{
    let mut back = Items::new(alloc);
    while let Some(row) = rows.pop() {
        back.push(with_normal::<W>(row))?;
    }
    Ok(back)
}

fn turned_round(alloc: Global, mut rows: Items<Row>) -> Result<Items<Row>, NoMemory>
    ensures { IfOk result (λ back. back ≡ reversed rows) }
{
    let mut back = Items::new(alloc);
    while let Some(row) = rows.pop() {
        back.push(row)?;
    }
    Ok(back)
}

fn normalised_rows<W: Word>(alloc: Global, rows: Items<Row>) -> Result<Items<Row>, NoMemory>
    requires sound { (i : ℕ) (row : Row) → slice_get rows i ≡ Some row → IsSoundRow W.BITS row }
    ensures { IfOk result (λ all. all ≡ map (normalised_row W.BITS) rows) }
{
    let back = normalised_back::<W>(alloc, rows)?;
    turned_round(alloc, back)
}

/// The description with the normal form of each row.
pub(crate) fn with_normal_forms<W: Word>(
    alloc: Global,
    d: RawDescription,
) -> Result<RawDescription, NoMemory>
    requires word { d.word ≡ W.BITS }
    requires sound { (i : ℕ) (row : Row) → slice_get d.rows i ≡ Some row → IsSoundRow W.BITS row }
    ensures { IfOk result (λ all. all ≡ normalised d) }
{
    let RawDescription {
        name,
        word,
        memory,
        base,
        stack,
        registers,
        flags,
        rows,
        last,
    } = d;
    let rows = normalised_rows::<W>(alloc, rows)?;
    Ok(RawDescription {
        name,
        word,
        memory,
        base,
        stack,
        registers,
        flags,
        rows,
        last,
    })
}

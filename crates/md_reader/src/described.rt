//! The description that an accepted text says.

ghost use Rattle.std.specs.Prelude.{◌≡◌, All, IfOk};
ghost use Rattle.md_text.specs.Expansion.{expansions};
ghost use Rattle.md_text.specs.Accepted.{description_of};
ghost use Rattle.md_forms.specs.Seen.{declarations_of, declared_of};
ghost use Rattle.md_expand.specs.Expanded.{AllExpanded};
ghost use Rattle.md_expand.specs.Limits.{IsWithinLimits};
ghost use Rattle.md_reader.specs.Ranges.{AreInRange};

use crate::names::{flags, registers};
use crate::numbers::{data, machine_name, memory, stack};
use crate::rows::rows_of;
use md_expand::Expanded;
use md_forms::Declared;
use md_rows::RawDescription;
use rtl_tree::NoMemory;
use std::alloc::Global;

/// The description of what is declared, by all its rows without modes.
pub fn described(
    alloc: Global,
    declared: &Declared,
    rows: &[Expanded],
) -> Result<RawDescription, NoMemory>
    requires in_range { AreInRange (declarations_of declared.now.all) }
    requires rows { AllExpanded (expansions declared.now.width (declarations_of declared.now.all)) rows.now }
    requires limits { All IsWithinLimits rows.now }
    ensures { IfOk result (λ d. d ≡ description_of (declared_of declared.now)) }
{
    let all = declared.all.as_slice();
    Ok(RawDescription {
        name: machine_name(alloc, all)?,
        word: declared.width,
        memory: memory(all),
        base: data(all),
        stack: stack(all),
        registers: registers(alloc, all)?,
        flags: flags(alloc, all)?,
        rows: rows_of(alloc, rows)?,
        last: declared.last,
    })
}

//! The program of a text that keeps the rules.

ghost use Rattle.std.specs.Prelude.{◌≡◌, IfOk};
ghost use Rattle.asm_row.specs.Readable.{IsReadable};
ghost use Rattle.asm_program.specs.Programs.{IsText};
ghost use Rattle.asm_text.specs.Read.{KeepsRules};

use asm_data::{Data, data_of, data_part};
use asm_instances::lines_of;
use asm_jumps::labels_of;
use asm_names::names_of;
use asm_program::Program;
use asm_row::RowIndex;
use md_rows::RawDescription;
use rtl_tree::NoMemory;
use std::alloc::Global;

/// The program of a text that keeps the rules.
pub fn program_of(
    alloc: Global,
    d: &RawDescription,
    rows: &RowIndex<'_>,
    text: &[u8],
) -> Result<Program, NoMemory>
    requires readable { IsReadable d.now }
    requires rows { rows.now ≡ d.now }
    requires text { KeepsRules d.now text.now }
    ensures { IfOk result (λ p. IsText d.now text.now p) }
{
    let names = names_of(alloc, d, text)?;
    let _ = names.functions.len();
    let labels = labels_of(alloc, d, &names, text)?;
    let lines = lines_of(alloc, rows, &names, text)?;
    let Data { symbols, bytes } = data_of(alloc, d, data_part(text))?;
    Ok(Program {
        lines,
        labels,
        symbols,
        bytes,
        names,
    })
}

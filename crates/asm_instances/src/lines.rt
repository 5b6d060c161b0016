//! The instances of a text, in order.

ghost use Rattle.std.specs.Prelude.{◌≡◌, IfOk, List};
ghost use Rattle.std.specs.List.{AllZip};
ghost use Rattle.asm_token.specs.Tokens.{Token};
ghost use Rattle.asm_row.specs.Readable.{IsReadable};
ghost use Rattle.asm_row.specs.Walk.{IsLine};
ghost use Rattle.asm_program.specs.TextLines.{Said as SpecSaid};
ghost use Rattle.asm_program.specs.Programs.{instructions};
ghost use Rattle.asm_labels.specs.declared.saying.Said.TheVariants.{Others};
ghost use Rattle.asm_instances.specs.Known.{AddsLine, IsBoundLine, IsKnownLine, IsNamedText};

use crate::binding::instance_of;
use asm_labels::{Said, said_on, split_line};
use asm_program::law::says_one_thing;
use asm_row::RowIndex;
use md_rows::Instance;
use rtl_tree::{Names, NoMemory};
use std::alloc::Global;

// With the instance of a line, where it is an instruction.
fn with_line(
    alloc: Global,
    rows: &RowIndex<'_>,
    names: &Names,
    mut lines: Vec<Instance>,
    said: Said<'_>,
    line: &[u8],
) -> Result<Vec<Instance>, NoMemory>
    requires readable { IsReadable rows.now }
    requires known { said ≡ Others → (ts : List Token) × (k : IsKnownLine rows.now names.now ts) × IsLine line.now ts }
    ensures { IfOk result (λ more. AddsLine rows.now names.now line.now said.entry lines.items more.items) }
{
    match said {
        Said::Others => {
            let instance = instance_of(alloc, rows, names, line)?;
            lines.push(instance)?;
            Ok(lines)
        }
        _ => Ok(lines),
    }
}

/// The instances of a text that keeps the rules, where each of its labels has a number.
pub fn lines_of(
    alloc: Global,
    rows: &RowIndex<'_>,
    names: &Names,
    text: &[u8],
) -> Result<Vec<Instance>, NoMemory>
    requires readable { IsReadable rows.now }
    requires text { (all : List SpecSaid) × IsNamedText rows.now names.now text.now all }
    ensures { IfOk result (λ lines. (all : List SpecSaid) → IsNamedText rows.now names.now text.now all → AllZip (IsBoundLine rows.now names.now) (instructions all) lines.items) }
{
    says_one_thing();
    let mut lines = Vec::new(alloc);
    let (_, mut rest) = text.split_at(0);
    while !rest.is_empty() {
        let (line, behind) = split_line(rest);
        let said = said_on(line);
        lines = with_line(alloc, rows, names, lines, said, line)?;
        rest = behind;
    }
    Ok(lines)
}

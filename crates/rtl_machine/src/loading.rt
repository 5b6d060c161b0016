//! Memory and code of a program.

ghost use Rattle.std.specs.Prelude.{All, IfOk, length, map, ◌+◌, ◌<◌, ◌≡◌, ◌≤◌};
ghost use Rattle.asm_program.specs.Programs.{IsAssembled};
ghost use Rattle.md_instances.specs.Instances.{IsOfDescription};
ghost use Rattle.machine_forms.specs.Forms.{moves_of};
ghost use Rattle.machine_step.specs.Runs.{IsCodeOf};
ghost use Rattle.machine_step.specs.Steps.{IsCode};
ghost use Rattle.rtl_machine.specs.Loading.{IsLoadable, code_of, linked_line, memory_with_data};

use crate::linking::linked;
use asm_program::Program;
use machine_forms::{Prepared, prepare};
use md_bounds::said_is_bounded;
use md_check::{Checked, Layout};
use md_instances::fill_row;
use md_rows::{Instance, RawDescription};
use md_said::said_is_sound;
use rtl_tree::{Effects, NoMemory};
use rtl_word::Word;
use std::alloc::Global;

/// Memory with the data of a program, and 0 elsewhere.
pub fn memory_of(alloc: Global, layout: Layout, p: &Program) -> Result<Vec<u8>, NoMemory>
    requires data { layout.base + length p.now.bytes ≤ layout.memory }
    ensures { IfOk result (λ memory. memory.items ≡ memory_with_data layout.base layout.memory p.now.bytes) }
{
    let mut memory = Vec::new(alloc);
    memory.resize(layout.base as usize, 0)?;
    memory.extend_from_slice(&p.bytes)?;
    memory.resize(layout.memory as usize, 0)?;
    Ok(memory)
}

fn line_of(
    alloc: Global,
    d: &RawDescription,
    line: &Instance,
    p: &Program,
) -> Result<Effects, NoMemory>
    requires row { line.now.row < length d.now.rows }
    ensures { IfOk result (λ made. made ≡ linked_line d.now p.now line.now) }
{
    let binding = linked(alloc, &line.binding, p)?;
    let rows = d.rows.as_slice();
    fill_row(alloc, &rows[usize::from(line.row)], &binding)
}

// The transfers of the lines alone, in order.
fn linked_lines(alloc: Global, d: &RawDescription, p: &Program) -> Result<Vec<Prepared>, NoMemory>
    requires instances { All (IsOfDescription d.now) p.now.lines }
    ensures code { IfOk result (λ code. map moves_of code.items ≡ map (linked_line d.now p.now) p.now.lines) }
    ensures assembled { IsAssembled p.now }
{
    let mut code = Vec::new(alloc);
    for line in &p.lines {
        code.push(prepare(alloc, line_of(alloc, d, line, p)?)?)?;
    }
    Ok(code)
}

/// The transfers of a program's lines, with numbers in place of names, prepared.
pub fn code_in<W: Word>(
    alloc: Global,
    m: &Checked<W>,
    p: &Program,
) -> Result<Vec<Prepared>, NoMemory>
    requires loadable { IsLoadable m.now p.now }
    ensures code { IfOk result (λ code. IsCodeOf W.BITS (code_of m.now p.now) (map moves_of code.items)) }
    ensures ready { IfOk result (λ code. IsCode W.BITS (map moves_of code.items)) }
{
    said_is_sound();
    said_is_bounded();
    let d = m.raw();
    linked_lines(alloc, d, p)
}

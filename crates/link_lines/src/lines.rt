//! The lines and labels of functions.

ghost use Rattle.std.specs.Prelude.{◌≡◌, ◌++◌, All, IfOk, [], ◌∷◌, OnOk, length, map};
ghost use Rattle.md_shapes.specs.Drawings.{frame_of};
ghost use Rattle.temp_machine.specs.Whole.{IsFramed};
ghost use Rattle.temp_code.specs.Realised.{AreRealised, IsRealised, end_transfers, transfers_of};
ghost use Rattle.temp_code.specs.Routines.{routine_of};
ghost use Rattle.temp_shapes.specs.Rows.{AreShapeRows};
ghost use Rattle.temp_laws.specs.Targets.{target_of};
ghost use Rattle.link_lines.specs.Lines.{AreAddedCovered, Writes, block_of_lines, blocks_labels, blocks_lines, end_of_lines, labels_of_code, lines_of_code, start_of};

use crate::steps::{push_entry, push_leave, push_plain};
use md_check::Checked;
use md_rows::{Binding, Instance};
use md_shapes::Pattern;
use rtl_tree::{Lab, NoMemory};
use rtl_value::LabelAt;
use rtl_word::Word;
use smallvec::SmallVec;
use std::alloc::Global;
use temp_code::{Block, Code, End, Transfer};
use temp_shapes::ShapeRows;

fn copied(alloc: Global, instance: &Instance) -> Result<Instance, NoMemory>
    ensures { IfOk result (λ i. i ≡ instance.now) }
{
    let list = SmallVec::from_slice(alloc, instance.binding.list.as_slice())?;
    Ok(Instance {
        row: instance.row,
        binding: Binding { list },
    })
}

fn push_transfer(
    lines: &mut Vec<Instance>,
    alloc: Global,
    transfer: &Transfer,
) -> Result<(), NoMemory>
    ensures { OnOk result (lines.new.items ≡ lines.old.items ++ transfer.now.by ∷ []) }
{
    lines.push(copied(alloc, &transfer.by)?)?;
    Ok(())
}

fn push_body(lines: &mut Vec<Instance>, alloc: Global, body: &[Transfer]) -> Result<(), NoMemory>
    ensures { OnOk result (lines.new.items ≡ lines.old.items ++ map (λ t. t.by) body.now) }
{
    for transfer in body {
        push_transfer(lines, alloc, transfer)?;
    }
    Ok(())
}

fn push_end<W: Word>(
    lines: &mut Vec<Instance>,
    alloc: Global,
    m: &Checked<W>,
    rows: &ShapeRows,
    code: &Code,
    end: &End,
) -> Result<(), NoMemory>
    requires rows { AreShapeRows m.now rows.now }
    requires covered { AreAddedCovered m.now rows.now }
    requires framed { IsFramed (target_of m.now (frame_of m.now.word rows.now.frame) []) (routine_of code.now) }
    requires realised { All (IsRealised m.now) (end_transfers end.now) }
    ensures { OnOk result (Writes m.now lines.old.items lines.new.items (end_of_lines m.now rows.now code.now end.now)) }
{
    match end {
        End::Fall => Ok(()),
        End::Jump(transfer) => push_transfer(lines, alloc, transfer),
        End::Branch(transfer) => push_transfer(lines, alloc, transfer),
        End::Call(transfer) => push_transfer(lines, alloc, transfer),
        End::Return => push_leave::<W>(lines, alloc, m, rows, code),
    }
}

fn push_block<W: Word>(
    lines: &mut Vec<Instance>,
    alloc: Global,
    m: &Checked<W>,
    rows: &ShapeRows,
    code: &Code,
    block: &Block,
) -> Result<(), NoMemory>
    requires rows { AreShapeRows m.now rows.now }
    requires covered { AreAddedCovered m.now rows.now }
    requires framed { IsFramed (target_of m.now (frame_of m.now.word rows.now.frame) []) (routine_of code.now) }
    requires realised { All (IsRealised m.now) (transfers_of block.now) }
    ensures { OnOk result (Writes m.now lines.old.items lines.new.items (block_of_lines m.now rows.now code.now block.now)) }
{
    push_body(lines, alloc, block.body.as_slice())?;
    push_end::<W>(lines, alloc, m, rows, code, &block.end)
}

/// Lines and labels of functions that are written one after the other.
#[derive(Drop)]
pub struct Written {
    pub lines: Vec<Instance>,
    pub labels: Vec<LabelAt>,
}

fn push_label(written: &mut Written, label: Lab) -> Result<(), NoMemory>
    ensures lines { OnOk result (written.new.lines.items ≡ written.old.lines.items) }
    ensures label { OnOk result (written.new.labels.items ≡ written.old.labels.items ++ record { label = label; at = length written.old.lines.items } ∷ []) }
{
    let Ok(at) = u32::try_from(written.lines.len()) else {
        return Err(NoMemory);
    };
    written.labels.push(LabelAt { label, at })?;
    Ok(())
}

fn push_blocks<W: Word>(
    written: &mut Written,
    alloc: Global,
    m: &Checked<W>,
    rows: &ShapeRows,
    code: &Code,
) -> Result<(), NoMemory>
    requires rows { AreShapeRows m.now rows.now }
    requires covered { AreAddedCovered m.now rows.now }
    requires framed { IsFramed (target_of m.now (frame_of m.now.word rows.now.frame) []) (routine_of code.now) }
    requires realised { AreRealised m.now code.now }
    ensures lines { OnOk result (Writes m.now written.old.lines.items written.new.lines.items (blocks_lines m.now rows.now code.now code.now.blocks)) }
    ensures labels { OnOk result (written.new.labels.items ≡ written.old.labels.items ++ blocks_labels m.now rows.now (length written.old.lines.items) code.now code.now.blocks) }
{
    for block in code.blocks.as_slice() {
        push_label(written, Lab::Block(block.label))?;
        push_block::<W>(&mut written.lines, alloc, m, rows, code, block)?;
    }
    Ok(())
}

/// Writes a function: its entry, and its blocks with their ends.
pub fn push_code<W: Word>(
    written: &mut Written,
    alloc: Global,
    m: &Checked<W>,
    rows: &ShapeRows,
    code: &Code,
) -> Result<(), NoMemory>
    requires rows { AreShapeRows m.now rows.now }
    requires covered { AreAddedCovered m.now rows.now }
    requires framed { IsFramed (target_of m.now (frame_of m.now.word rows.now.frame) []) (routine_of code.now) }
    requires realised { AreRealised m.now code.now }
    ensures lines { OnOk result (Writes m.now written.old.lines.items written.new.lines.items (lines_of_code m.now rows.now code.now)) }
    ensures labels { OnOk result (written.new.labels.items ≡ written.old.labels.items ++ labels_of_code m.now rows.now (length written.old.lines.items) code.now) }
{
    push_label(written, Lab::Function(code.function))?;
    push_entry::<W>(&mut written.lines, alloc, m, rows, code)?;
    push_blocks::<W>(written, alloc, m, rows, code)
}

/// Writes the start: the stack register is set, main called, and the run ended.
pub fn push_start<W: Word>(
    lines: &mut Vec<Instance>,
    alloc: Global,
    m: &Checked<W>,
    rows: &ShapeRows,
    main: u16,
) -> Result<(), NoMemory>
    requires rows { AreShapeRows m.now rows.now }
    requires covered { AreAddedCovered m.now rows.now }
    ensures { OnOk result (Writes m.now lines.old.items lines.new.items (start_of m.now rows.now main)) }
{
    push_plain::<W>(lines, alloc, m, rows, Pattern::SetStack, Lab::Block(0))?;
    push_plain::<W>(lines, alloc, m, rows, Pattern::Call, Lab::Function(main))?;
    push_plain::<W>(lines, alloc, m, rows, Pattern::Halt, Lab::Block(0))
}

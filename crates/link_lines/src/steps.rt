//! The instructions that linking adds, one by one.

ghost use Rattle.std.specs.Prelude.{◌-◌, ◌/◌, ◌^◌, ◌≡◌, ◌≤◌, ◌<◌, [], ◌∷◌, OnOk, Some, true};
ghost use Rattle.rtl_word.specs.Words.{IsWordSize};
ghost use Rattle.md_covers.specs.Numbers.{runs_of};
ghost use Rattle.md_shapes.specs.Drawings.{frame_of};
ghost use Rattle.md_shapes.specs.Shapes.{has_transfer};
ghost use Rattle.temp_machine.specs.Whole.{IsFramed};
ghost use Rattle.temp_code.specs.Routines.{routine_of};
ghost use Rattle.temp_shapes.specs.Rows.{AreShapeRows};
ghost use Rattle.temp_laws.specs.Targets.{target_of};
ghost use Rattle.link_rows.specs.Added.{is_added};
ghost use Rattle.link_lines.specs.Glue.{has_numbers, made, made_at};
ghost use Rattle.link_lines.specs.Lines.{AreAddedCovered, Writes, entry_of, leave_of};

use link_rows::added_instance;
use md_check::Checked;
use md_rows::Instance;
use md_said::said_is_sound;
use md_shapes::Pattern;
use rtl_tree::{Lab, NoMemory};
use rtl_word::Word;
use std::alloc::Global;
use temp_code::Code;
use temp_shapes::ShapeRows;

// An instruction of a shape that has no numbers.
pub(crate) fn push_plain<W: Word>(
    lines: &mut Vec<Instance>,
    alloc: Global,
    m: &Checked<W>,
    rows: &ShapeRows,
    pattern: Pattern,
    label: Lab,
) -> Result<(), NoMemory>
    requires rows { AreShapeRows m.now rows.now }
    requires covered { AreAddedCovered m.now rows.now }
    requires added { is_added pattern ≡ true }
    requires transfer { has_transfer (frame_of m.now.word rows.now.frame) pattern ≡ true }
    requires numbers { runs_of m.now.word pattern ≡ [] }
    ensures { OnOk result (Writes m.now lines.old.items lines.new.items (made m.now rows.now pattern 0 label ∷ [])) }
{
    let line = added_instance::<W>(alloc, m, rows, pattern, 0, label)?;
    lines.push(line)?;
    Ok(())
}

// An instruction of a shape at a number.
fn push_numbered<W: Word>(
    lines: &mut Vec<Instance>,
    alloc: Global,
    m: &Checked<W>,
    rows: &ShapeRows,
    pattern: Pattern,
    number: u32,
) -> Result<(), NoMemory>
    requires rows { AreShapeRows m.now rows.now }
    requires covered { AreAddedCovered m.now rows.now }
    requires added { is_added pattern ≡ true }
    requires transfer { has_transfer (frame_of m.now.word rows.now.frame) pattern ≡ true }
    requires number { has_numbers m.now.word pattern number ≡ true }
    ensures { OnOk result (Writes m.now lines.old.items lines.new.items (made_at m.now rows.now pattern number ∷ [])) }
{
    let label = Lab::Block(0);
    let line = added_instance::<W>(alloc, m, rows, pattern, number, label)?;
    lines.push(line)?;
    Ok(())
}

fn below_zero(bits: u32, number: u32) -> u32
    requires size { IsWordSize bits }
    requires some { 0 < number }
    requires few { number ≤ 32000 }
    ensures { result ≡ 2 ^ bits - number }
{
    if bits == 16 {
        0x1_0000 - number
    } else {
        0xffff_ffff - (number - 1)
    }
}

/// The entry of a function: its frame is taken, and the link register saved.
pub(crate) fn push_entry<W: Word>(
    lines: &mut Vec<Instance>,
    alloc: Global,
    m: &Checked<W>,
    rows: &ShapeRows,
    code: &Code,
) -> Result<(), NoMemory>
    requires rows { AreShapeRows m.now rows.now }
    requires covered { AreAddedCovered m.now rows.now }
    requires framed { IsFramed (target_of m.now (frame_of m.now.word rows.now.frame) []) (routine_of code.now) }
    ensures { OnOk result (Writes m.now lines.old.items lines.new.items (entry_of m.now rows.now code.now)) }
{
    let bits = m.raw().word;
    let down = below_zero(bits, code.frame);
    push_numbered::<W>(lines, alloc, m, rows, Pattern::MoveStack, down)?;
    match rows.frame.link {
        Some(_) => push_numbered::<W>(
            lines,
            alloc,
            m,
            rows,
            Pattern::SaveLink,
            code.first_home - bits / 8,
        ),
        None => Ok(()),
    }
}

/// A return: the link register is fetched, the frame given back, and the place to return to gone to.
pub(crate) fn push_leave<W: Word>(
    lines: &mut Vec<Instance>,
    alloc: Global,
    m: &Checked<W>,
    rows: &ShapeRows,
    code: &Code,
) -> Result<(), NoMemory>
    requires rows { AreShapeRows m.now rows.now }
    requires covered { AreAddedCovered m.now rows.now }
    requires framed { IsFramed (target_of m.now (frame_of m.now.word rows.now.frame) []) (routine_of code.now) }
    ensures { OnOk result (Writes m.now lines.old.items lines.new.items (leave_of m.now rows.now code.now)) }
{
    said_is_sound();
    let d = m.raw();
    if let Some(_) = rows.frame.link {
        let home = code.first_home - d.word / 8;
        push_numbered::<W>(lines, alloc, m, rows, Pattern::RestoreLink, home)?;
    }
    push_numbered::<W>(lines, alloc, m, rows, Pattern::MoveStack, code.frame)?;
    push_plain::<W>(lines, alloc, m, rows, Pattern::Return, Lab::Block(0))
}

//! The transfer of a shape by its instruction.

ghost use Rattle.std.specs.Prelude.{◌≡◌, IfOk, true};
ghost use Rattle.md_shapes.specs.Drawings.{frame_of};
ghost use Rattle.md_covers.specs.Covers.{IsOpenOf, general_bits as general_bits_of};
ghost use Rattle.temp_code.specs.Realised.{IsRealised};
ghost use Rattle.temp_shapes.specs.Patterns.{is_listed};
ghost use Rattle.temp_shapes.specs.Operands.{open_of};
ghost use Rattle.temp_shapes.specs.Rows.{AreShapeRows, IsPatternCovered};
ghost use Rattle.temp_shapes.specs.Instances.{IsInstanceOf};
ghost use Rattle.temp_shapes.specs.Elementary.{IsElementary, IsTemporary, IsTransferOf};

use crate::figures::{Operands, shape_effects};
use crate::instances::row_instance;
use crate::rows::ShapeRows;
use md_check::Checked;
use md_covers::general_bits;
use md_covers::laws::general_bits_are_a_sum;
use md_instances::effects_of;
use md_rows::Instance;
use md_said::{said_is_limited, said_is_sound};
use md_shapes::Pattern;
use rtl_tree::NoMemory;
use rtl_word::Word;
use std::alloc::Global;
use temp_code::Transfer;

fn instance_of<W: Word>(
    alloc: Global,
    m: &Checked<W>,
    rows: &ShapeRows,
    pattern: Pattern,
    operands: Operands,
) -> Result<Instance, NoMemory>
    requires rows { AreShapeRows m.now rows.now }
    requires listed { is_listed pattern ≡ true }
    requires covered { IsPatternCovered m.now pattern }
    requires fit { IsOpenOf m.now.word (general_bits_of m.now.registers) pattern (open_of operands) }
    ensures { IfOk result (IsInstanceOf m.now (frame_of m.now.word rows.now.frame) pattern (open_of operands)) }
{
    said_is_sound();
    said_is_limited();
    general_bits_are_a_sum();
    let d = m.raw();
    let Some(place) = rows.row_for(pattern) else {
        unreachable!();
    };
    let transfer = shape_effects(alloc, d.word, rows.frame, pattern, operands)?;
    let general = general_bits(d.registers.as_slice());
    let row = &d.rows.as_slice()[usize::from(place)];
    row_instance(alloc, d.word, general, row, place, &transfer)
}

/// The transfer of a shape at these operands, by the row that covers the shape: its other assignments are to flags, name no general
/// register by its number, and trap only where the shape's do.
pub fn transfer_of<W: Word>(
    alloc: Global,
    m: &Checked<W>,
    rows: &ShapeRows,
    pattern: Pattern,
    operands: Operands,
) -> Result<Transfer, NoMemory>
    requires rows { AreShapeRows m.now rows.now }
    requires listed { is_listed pattern ≡ true }
    requires covered { IsPatternCovered m.now pattern }
    requires fit { IsOpenOf m.now.word (general_bits_of m.now.registers) pattern (open_of operands) }
    ensures shape { IfOk result (IsTransferOf m.now (frame_of m.now.word rows.now.frame) pattern (open_of operands)) }
    ensures realised { IfOk result (IsRealised m.now) }
    ensures elementary { IfOk result (λ t. IsTemporary operands.a → IsTemporary operands.b → IsElementary m.now t) }
{
    let by = instance_of::<W>(alloc, m, rows, pattern, operands)?;
    let what = effects_of::<W>(alloc, m, &by)?;
    Ok(Transfer { what, by })
}

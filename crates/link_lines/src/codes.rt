//! The lines and labels of a unit's codes.

ghost use Rattle.std.specs.Prelude.{◌≡◌, ◌≢◌, ◌++◌, All, AllPairs, IfOk, OnOk, [], length, map};
ghost use Rattle.md_shapes.specs.Drawings.{frame_of};
ghost use Rattle.temp_machine.specs.Whole.{IsFramed};
ghost use Rattle.temp_code.specs.Realised.{AreRealised};
ghost use Rattle.temp_code.specs.Routines.{main_name, number_in, routine_of};
ghost use Rattle.temp_shapes.specs.Rows.{AreShapeRows};
ghost use Rattle.temp_laws.specs.Targets.{target_of};
ghost use Rattle.md_instances.specs.Instances.{IsOfDescription};
ghost use Rattle.rtl_machine.specs.Loading.{moves_of};
ghost use Rattle.link_code.specs.Linked.{labels_of, program};
ghost use Rattle.link_lines.specs.Glue.{job_of};
ghost use Rattle.link_lines.specs.Lines.{AreAddedCovered, Writes, labels_of_codes, lines_of_codes};

use crate::law::{added_are_covered, codes_are_linked};
use crate::lines::{Written, push_code, push_start};
use md_check::Checked;
use rtl_tree::NoMemory;
use rtl_word::Word;
use std::alloc::Global;
use temp_code::{Code, Unit};
use temp_shapes::ShapeRows;

fn push_codes<W: Word>(
    written: &mut Written,
    alloc: Global,
    m: &Checked<W>,
    rows: &ShapeRows,
    codes: &[Code],
) -> Result<(), NoMemory>
    requires rows { AreShapeRows m.now rows.now }
    requires covered { AreAddedCovered m.now rows.now }
    requires framed { All (λ c. IsFramed (target_of m.now (frame_of m.now.word rows.now.frame) []) (routine_of c)) codes.now }
    requires realised { All (AreRealised m.now) codes.now }
    ensures lines { OnOk result (Writes m.now written.old.lines.items written.new.lines.items (lines_of_codes m.now rows.now codes.now)) }
    ensures labels { OnOk result (written.new.labels.items ≡ written.old.labels.items ++ labels_of_codes m.now rows.now (length written.old.lines.items) codes.now) }
{
    for code in codes {
        push_code::<W>(written, alloc, m, rows, code)?;
    }
    Ok(())
}

/// The lines and labels of a unit's program: the start, which calls main, and then the codes in their order.
pub fn linked_lines<W: Word>(
    alloc: Global,
    m: &Checked<W>,
    rows: &ShapeRows,
    unit: &Unit,
    main: u16,
) -> Result<Written, NoMemory>
    requires rows { AreShapeRows m.now rows.now }
    requires framed { All (λ c. IsFramed (target_of m.now (frame_of m.now.word rows.now.frame) []) (routine_of c)) unit.now.codes }
    requires realised { All (AreRealised m.now) unit.now.codes }
    requires different { AllPairs (λ b c. b.function ≢ c.function) unit.now.codes }
    requires main { main ≡ number_in unit.now.names.functions main_name }
    ensures lines { IfOk result (λ made. map (moves_of m.now) made.lines.items ≡ program (job_of m.now rows.now unit.now)) }
    ensures rows { IfOk result (λ made. All (IsOfDescription m.now) made.lines.items) }
    ensures labels { IfOk result (λ made. made.labels.items ≡ labels_of (job_of m.now rows.now unit.now) (map (λ c. c.function) unit.now.codes)) }
{
    added_are_covered();
    codes_are_linked();
    let _d = m.raw();
    let mut written = Written {
        lines: Vec::new(alloc),
        labels: Vec::new(alloc),
    };
    push_start::<W>(&mut written.lines, alloc, m, rows, main)?;
    push_codes::<W>(&mut written, alloc, m, rows, unit.codes.as_slice())?;
    Ok(written)
}

//! The order of the passes.

ghost use Rattle.std.specs.Prelude.{◌≡◌, All, IfOk, map};
ghost use Rattle.temp_shapes.specs.Rows.{AreShapeRows};
ghost use Rattle.pass_driver.specs.Compiling.{IsCompiled, MayBeCompiled};
ghost use Rattle.pass_driver.specs.Passes.{AreColored, IsColored, IsReady};

use crate::compiled::{Compiled, Dump, Part, Pass};
use crate::laws::{colors_are_met, compiled_is_same, units_are_linkable};
use c_lacks::laws::{none_is_lacked, operators_are_there};
use c_tree::Typed;
use frame_link::link_frames;
use md_check::Checked;
use md_said::said_is_sound;
use naive_expand::expand;
use naive_ready::laws::typed_may_be_expanded;
use reg_color::{apply_by, colour};
use rtl_tree::NoMemory;
use rtl_word::Word;
use sqlite_items::Items;
use std::alloc::Global;
use temp_code::{Code, Unit, copy_code};
use temp_shapes::ShapeRows;

/// The codes behind a pass.
fn dump_of(alloc: Global, pass: Pass, codes: &[Code]) -> Result<Dump, NoMemory>
    ensures { IfOk result (λ dump. map (λ part. part.code) dump.parts ≡ codes.now) }
{
    let mut parts = Items::new(alloc);
    for code in codes {
        parts.push(Part {
            function: Some(code.function),
            code: copy_code(alloc, code)?,
        })?;
    }
    Ok(Dump { pass, parts })
}

/// The same code with registers in place of temporaries.
fn coloured<W: Word>(
    alloc: Global,
    m: &Checked<W>,
    rows: &ShapeRows,
    code: &Code,
) -> Result<Code, NoMemory>
    requires rows { AreShapeRows m.now rows.now }
    requires ready { IsReady m.now code.now }
    ensures { IfOk result (IsColored m.now code.now) }
{
    let colouring = colour::<W>(alloc, code, m)?;
    apply_by::<W>(alloc, code, &colouring, m, rows)
}

fn all_coloured<W: Word>(
    alloc: Global,
    m: &Checked<W>,
    codes: &[Code],
) -> Result<Items<Code>, NoMemory>
    requires ready { All (IsReady m.now) codes.now }
    ensures { IfOk result (λ made. AreColored m.now codes.now made) }
{
    let rows = ShapeRows::new::<W>(m);
    let mut made = Items::new(alloc);
    for code in codes {
        made.push(coloured::<W>(alloc, m, &rows, code)?)?;
    }
    Ok(made)
}

/// The program of a typed tree for a described machine, and the code behind each pass. With `plain` nothing is optimised.
pub fn compile<W: Word>(
    alloc: Global,
    t: &Typed,
    m: &Checked<W>,
    plain: bool,
) -> Result<Compiled, NoMemory>
    requires { MayBeCompiled m.now t.now }
    ensures { IfOk result (IsCompiled m.now t.now) }
{
    said_is_sound();
    operators_are_there();
    none_is_lacked();
    typed_may_be_expanded();
    colors_are_met();
    units_are_linkable();
    compiled_is_same();
    let _ = m.raw();
    let Unit {
        codes,
        symbols,
        bytes,
        names,
    } = expand::<W>(alloc, t, m)?;
    let mut dumps = Items::new(alloc);
    dumps.push(dump_of(alloc, Pass::Expand, codes.as_slice())?)?;
    let codes = all_coloured::<W>(alloc, m, codes.as_slice())?;
    dumps.push(dump_of(alloc, Pass::Colour, codes.as_slice())?)?;
    let unit = Unit {
        codes,
        symbols,
        bytes,
        names,
    };
    let program = link_frames::<W>(alloc, unit, m)?;
    Ok(Compiled { dumps, program })
}

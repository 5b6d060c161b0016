//! The code of a whole source.

ghost use Rattle.std.specs.Prelude.{IfOk};
ghost use Rattle.temp_shapes.specs.Rows.{AreShapeRows};
ghost use Rattle.naive_builder.specs.Appending.{fixed_in};
ghost use Rattle.naive_expand.specs.Codes.{AreCodesFrom};
ghost use Rattle.naive_expand.specs.Units.{IsNaiveCode, MayBeExpanded};

use crate::functions::{function_code, word_bits};
use crate::names::names_of;
use c_tree::Typed;
use md_check::Checked;
use md_layout::said_is_laid_out;
use naive_data::{have_room, place_statics};
use naive_expr::Site;
use naive_fits::laws::all_labels_are_once;
use naive_units::laws::units_are_good;
use naive_whole::laws::naive_code_does_the_same;
use rtl_tree::NoMemory;
use rtl_word::Word;
use sqlite_items::Items;
use std::alloc::Global;
use temp_code::{Code, Unit};
use temp_laws::targets_are_sound;
use temp_shapes::ShapeRows;

fn codes_of<W: Word>(
    alloc: Global,
    m: &Checked<W>,
    rows: &ShapeRows,
    t: &Typed,
) -> Result<Items<Code>, NoMemory>
    requires rows { AreShapeRows m.now rows.now }
    requires tree { MayBeExpanded m.now t.now }
    ensures { IfOk result (AreCodesFrom m.now (fixed_in m.now rows.now) t.now 0 0 t.now.functions) }
{
    let mut site = Site::new(alloc, word_bits::<W>(m), t.statics.as_slice())?;
    let mut codes = Items::new(alloc);
    let mut label = 0;
    for i in 0..t.functions.len() {
        let made = function_code::<W>(alloc, m, rows, &mut site, t, i as u16, label)?;
        codes.push(made.code)?;
        label = made.next_label;
    }
    Ok(codes)
}

/// The naive code of a source within the limits, by the elementary transfers of a described machine.
pub fn expand<W: Word>(alloc: Global, t: &Typed, m: &Checked<W>) -> Result<Unit, NoMemory>
    requires { MayBeExpanded m.now t.now }
    ensures { IfOk result (IsNaiveCode m.now t.now) }
{
    all_labels_are_once();
    naive_code_does_the_same();
    units_are_good();
    said_is_laid_out();
    have_room();
    targets_are_sound();
    word_bits::<W>(m);
    let rows = ShapeRows::new::<W>(m);
    let codes = codes_of::<W>(alloc, m, &rows, t)?;
    let data = place_statics::<W>(alloc, m.layout().base, t.statics.as_slice())?;
    let names = names_of(alloc, t)?;
    Ok(Unit {
        codes,
        symbols: data.symbols,
        bytes: data.bytes,
        names,
    })
}

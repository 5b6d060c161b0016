//! The code of one function.

ghost use Rattle.std.specs.Prelude.{◌≡◌, ◌+◌, ◌/◌, ◌<◌, ◌≤◌, ◌^◌, ℕ, List, [], ◌∷◌, IfOk, OnOk, Some, length, slice_get};
ghost use Rattle.rtl_word.specs.Words.{IsWordSize};
ghost use Rattle.md_check.specs.Checking.{IsChecked};
ghost use Rattle.temp_machine.specs.Routines.{pushed_by};
ghost use Rattle.c_tree.specs.declared.typed.Function.{Function as SourceFunction};
ghost use Rattle.c_tree.specs.declared.typed.Static.{Static as FileObject};
ghost use Rattle.c_tree.specs.declared.typed.Typed.{Typed as Source};
ghost use Rattle.temp_shapes.specs.Rows.{AreShapeRows};
ghost use Rattle.naive_builder.specs.Appending.{fixed_in, opened};
ghost use Rattle.naive_builder.specs.Finished.{AreOnce, DoesOperations};
ghost use Rattle.naive_expr.specs.Emitted.{emitted};
ghost use Rattle.naive_expr.specs.Tables.{IsSiteOf};
ghost use Rattle.naive_stat.specs.Functions.{AreOperationsOf};
ghost use Rattle.naive_fits.specs.Doable.{AreDoable};
ghost use Rattle.naive_forms.specs.Codes.{IsBuilt};
ghost use Rattle.naive_expand.specs.Frames.{HasSmallFrame, IsFrameOf};
ghost use Rattle.naive_expand.specs.Codes.{HasNumbers, IsMadeOf};
ghost use Rattle.naive_expand.specs.Units.{MayBeExpanded};

use crate::frames::{Frame, frame_for};
use crate::homes::take_homes;
use crate::selection::append_all;
use c_tree::{Function, Typed};
use md_check::Checked;
use naive_builder::Builder;
use naive_builder::laws::finished_does_operations;
use naive_expr::{Emitter, Site};
use naive_fits::laws::{labels_are_once, operations_fit};
use naive_stat::expand_function;
use rtl_tree::NoMemory;
use rtl_word::Word;
use std::alloc::Global;
use temp_code::Code;
use temp_laws::targets_are_sound;
use temp_shapes::ShapeRows;

/// The code of a function, and the label behind those that it takes.
#[derive(Drop)]
pub(crate) struct Made {
    pub code: Code,
    pub next_label: u32,
}

/// The operations of a function, which is entered in the site. A call pushes so many bytes.
fn operations_of(
    alloc: Global,
    site: &mut Site,
    f: &Function,
    frame: &Frame,
    pushed: u32,
    label: u32,
) -> Result<Emitter, NoMemory>
    requires frame { IsFrameOf site.old.bits f.now frame.now }
    requires small { HasSmallFrame site.old.bits f.now }
    requires pushed { pushed ≤ 4 }
    requires label { label + 1 < 2 ^ 32 }
    ensures operations { IfOk result (λ out. (w : ℕ) (t : Source) → IsSiteOf w t.statics site.old → AreOperationsOf w pushed t f.now label out) }
    ensures site { OnOk result ((w : ℕ) (ss : List FileObject) → IsSiteOf w ss site.old → IsSiteOf w ss site.new) }
{
    site.enter(alloc, f, frame.arrays)?;
    expand_function(alloc, site, f, frame.scalars, frame.bytes + pushed, label)
}

/// The code that does operations.
fn code_of<W: Word>(
    alloc: Global,
    m: &Checked<W>,
    rows: &ShapeRows,
    number: u16,
    params: u8,
    frame: &Frame,
    label: u32,
    out: &Emitter,
) -> Result<Code, NoMemory>
    requires rows { AreShapeRows m.now rows.now }
    requires label { label + 1 < 2 ^ 32 }
    requires doable { AreDoable m.now (emitted out.now) }
    requires once { AreOnce (label ∷ opened (emitted out.now)) }
    ensures numbers { IfOk result (HasNumbers number params frame.now out.now.depths) }
    ensures does { IfOk result (DoesOperations m.now (fixed_in m.now rows.now) label (emitted out.now)) }
    ensures built { IfOk result (IsBuilt m.now (fixed_in m.now rows.now) label (emitted out.now)) }
{
    finished_does_operations();
    targets_are_sound();
    word_bits::<W>(m);
    let mut b = Builder::new(alloc, label);
    take_homes(&mut b, frame.scalars, out.depths.as_slice())?;
    append_all::<W>(alloc, m, rows, &mut b, out.ops.as_slice())?;
    b.finish(number, params, frame.bytes, frame.first_home, frame.slots)
}

/// The bits of a word of a description, which was accepted.
pub(crate) fn word_bits<W: Word>(m: &Checked<W>) -> u32
    ensures word { result ≡ m.now.word }
    ensures size { IsWordSize m.now.word }
    ensures checked { IsChecked W.BITS m.now }
{
    m.raw().word
}

/// The bytes that a call pushes where no register links it.
fn pushed(rows: &ShapeRows, bits: u32) -> u32
    requires { IsWordSize bits }
    ensures bytes { result ≡ pushed_by rows.now.frame.link (bits / 8) }
    ensures small { result ≤ 4 }
{
    match rows.frame.link {
        Some(_) => 0,
        None => bits / 8,
    }
}

/// The code of a function of a source, by its number.
pub(crate) fn function_code<W: Word>(
    alloc: Global,
    m: &Checked<W>,
    rows: &ShapeRows,
    site: &mut Site,
    t: &Typed,
    number: u16,
    label: u32,
) -> Result<Made, NoMemory>
    requires rows { AreShapeRows m.now rows.now }
    requires tree { MayBeExpanded m.now t.now }
    requires number { number < length t.now.functions }
    requires site { IsSiteOf m.now.word t.now.statics site.old }
    ensures code { IfOk result (λ made. (f : SourceFunction) → slice_get t.now.functions number ≡ Some f → IsMadeOf m.now (fixed_in m.now rows.now) t.now number f label made) }
    ensures site { OnOk result (IsSiteOf m.now.word t.now.statics site.new) }
{
    labels_are_once();
    operations_fit();
    let bits = word_bits::<W>(m);
    let functions = t.functions.as_slice();
    let f = &functions[usize::from(number)];
    let Ok(params) = u8::try_from(f.params.len()) else {
        return Err(NoMemory);
    };
    if label >= u32::MAX {
        return Err(NoMemory);
    }
    let frame = frame_for::<W>(f)?;
    let out = operations_of(alloc, site, f, &frame, pushed(rows, bits), label)?;
    let code = code_of::<W>(alloc, m, rows, number, params, &frame, label, &out)?;
    Ok(Made {
        code,
        next_label: out.next_label,
    })
}

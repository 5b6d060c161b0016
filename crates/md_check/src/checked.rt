//! Descriptions that are accepted.

ghost use Rattle.std.specs.Prelude.{◌≡◌, ◌↔◌, ◌<◌, ◌+◌, ◌^◌, ℕ, IfOk, IfErr};
ghost use Rattle.std.specs.Int.{bit_at};
ghost use Rattle.md_shapes.specs.Shapes.{plain};
ghost use Rattle.md_overlap.specs.Overlap.{HasOverlap};
ghost use Rattle.md_said.specs.Sound.{IsSound};
ghost use Rattle.md_check.specs.Accepted.{IsCovered, IsWhole, normalised};
ghost use Rattle.md_check.specs.Checking.{AreReadRows, HasBit, HasBits, IsChecked, IsClear, IsFault, IsSaid, TellsRows};

use crate::normal::with_normal_forms;
use crate::registers::has_few_registers;
use crate::shapes::{first_missing, is_plainly_covered};
use md_fault::MdFault;
use md_overlap::first_overlap;
use md_rows::RawDescription;
use md_said::said_is_sound;
use rtl_word::Word;
use std::alloc::Global;
use std::marker::{Model, PhantomData};
use vp_io::Reason;

/// A description that is accepted, with the normal form of each row. Contracts see the description.
#[derive(Drop)]
pub struct Checked<W: Word> {
    description: RawDescription,
    bits: PhantomData<W>,
}

impl<W: Word> Model for Checked<W> {
    ghost use Rattle.md_rows.specs.declared.description.RawDescription.{RawDescription};
    ghost use Rattle.md_rows.specs.contracts.description.RawDescription as d;
    ghost use Rattle.md_check.specs.Checking.{IsChecked};

    ghost Value = { RawDescription };

    ghost coded = { d.the_row.coded };

    ghost view = { λ c. c.description };

    ghost invariant = { λ c. IsChecked W.BITS c.description };
}

/// Where memory, data and stack lie.
#[derive(Clone, Copy, Debug, PartialEq, Eq)]
pub struct Layout {
    /// The size of memory in bytes.
    pub memory: u32,
    /// The address at which data begins.
    pub base: u32,
    /// The bytes that the stack may take, at the end of memory.
    pub stack: u32,
}

/// Which of the operators of shapes 30 to 39 a description has.
#[derive(Clone, Copy, Debug, PartialEq, Eq)]
pub struct OpSet {
    /// Bit k is set where shape 30 + k is covered.
    pub covered: u16,
}

impl<W: Word> Checked<W> {
    /// The description that was accepted, in which each row has its normal form.
    pub fn raw(&self) -> &RawDescription
        ensures description { result.now ≡ self.now }
        ensures checked { IsChecked W.BITS result.now }
    {
        &self.description
    }

    pub fn layout(&self) -> Layout
        ensures memory { result.memory ≡ self.now.memory }
        ensures base { result.base ≡ self.now.base }
        ensures stack { result.stack ≡ self.now.stack }
    {
        let d = &self.description;
        Layout {
            memory: d.memory,
            base: d.base,
            stack: d.stack,
        }
    }
}

fn reason(line: u32, rule: u8, detail: u32) -> Reason
    ensures { result ≡ record { line = line; column = 1; rule = rule; detail = detail } }
{
    Reason {
        line,
        column: 1,
        rule,
        detail,
    }
}

fn reason_of_registers(raw: &RawDescription) -> Option<Reason>
    requires apart { (line earlier : ℕ) → HasOverlap raw.now line earlier → ⊥ }
    ensures { TellsRows raw.now result }
{
    if has_few_registers(raw) {
        Some(reason(raw.last, 16, 0))
    } else {
        None
    }
}

fn reason_of_rows(raw: &RawDescription) -> Option<Reason>
    requires sound { IsSound raw.now }
    ensures { TellsRows raw.now result }
{
    match first_overlap(raw) {
        Some(overlap) => Some(reason(overlap.line, 15, overlap.earlier)),
        None => reason_of_registers(raw),
    }
}

fn check_shapes<W: Word>(alloc: Global, raw: RawDescription) -> Result<Checked<W>, MdFault>
    requires word { raw.word ≡ W.BITS }
    requires said { IsSaid raw }
    requires sound { IsSound raw }
    requires clear { IsClear raw }
    ensures whole { IfOk result (λ checked. IsWhole raw) }
    ensures normal { IfOk result (λ checked. checked ≡ normalised raw) }
    ensures fault { IfErr result (IsFault raw) }
{
    let last = raw.last;
    let description = with_normal_forms::<W>(alloc, raw)?;
    match first_missing::<W>(&description) {
        Some(shape) => Err(MdFault::Bad(reason(last, 17, u32::from(shape)))),
        None => Ok(Checked {
            description,
            bits: PhantomData,
        }),
    }
}

/// Whether a description that a text says is accepted, by the rules of a whole description. A description that is refused is lost.
pub fn check<W: Word>(alloc: Global, raw: RawDescription) -> Result<Checked<W>, MdFault>
    requires word { raw.word ≡ W.BITS }
    requires said { IsSaid raw }
    ensures whole { IfOk result (λ checked. IsWhole raw) }
    ensures normal { IfOk result (λ checked. checked ≡ normalised raw) }
    ensures fault { IfErr result (IsFault raw) }
{
    said_is_sound();
    match reason_of_rows(&raw) {
        Some(reason) => Err(MdFault::Bad(reason)),
        None => check_shapes::<W>(alloc, raw),
    }
}

fn bit(place: u8) -> u16
    requires { place < 10 }
    ensures { result ≡ 2 ^ place }
{
    1 << place
}

fn operator_bit<W: Word>(d: &RawDescription, place: u8) -> u16
    requires place { place < 10 }
    requires word { d.now.word ≡ W.BITS }
    requires rows { AreReadRows W.BITS d.now.rows }
    ensures { HasBit d.now result place }
{
    if is_plainly_covered::<W>(d, 30 + place) {
        bit(place)
    } else {
        0
    }
}

fn operators_in<W: Word>(d: &RawDescription) -> u16
    requires word { d.now.word ≡ W.BITS }
    requires rows { AreReadRows W.BITS d.now.rows }
    ensures { HasBits d.now result 10 }
{
    let mut covered = 0;
    for place in 0..10 {
        covered |= operator_bit::<W>(d, place);
    }
    covered
}

/// Which of the operators that a machine may have the description's rows cover. Takes no memory.
pub fn operators<W: Word>(m: &Checked<W>) -> OpSet
    ensures { HasBits m.now result.covered 10 }
{
    said_is_sound();
    OpSet {
        covered: operators_in::<W>(m.raw()),
    }
}

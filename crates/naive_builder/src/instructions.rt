//! The transfers of shapes that are appended.

ghost use Rattle.std.specs.Prelude.{◌≡◌, [], ◌∷◌, IfOk, OnOk, false, true};
ghost use Rattle.md_check.specs.Accepted.{has_link};
ghost use Rattle.md_covers.specs.Numbers.{IsNumberOf, runs_of};
ghost use Rattle.temp_shapes.specs.Operands.{open_of};
ghost use Rattle.temp_shapes.specs.Patterns.{is_listed};
ghost use Rattle.temp_shapes.specs.Rows.{AreShapeRows, IsPatternCovered};
ghost use Rattle.temp_laws.specs.Covered.{is_always};
ghost use Rattle.temp_laws.specs.Doing.{ends_block};
ghost use Rattle.naive_code.specs.Operations as code;
ghost use Rattle.naive_run.specs.Standing.{on_two_to as two_and_label, shaped, with_label as label_alone};
ghost use Rattle.naive_builder.specs.Covered.{AreOperands};
ghost use Rattle.naive_builder.specs.Appending.{IsMade, Puts, fixed_in, with_function as function_alone};

use crate::builder::Builder;
use md_check::Checked;
use md_shapes::Pattern;
use rtl_tree::{Cell, Lab, NoMemory};
use rtl_word::Word;
use std::alloc::Global;
use temp_code::Transfer;
use temp_laws::required_covered;
use temp_shapes::{Operands, ShapeRows, transfer_of};

/// Two temporaries.
pub(crate) fn on_two(a: u16, b: u16) -> Operands
    ensures { open_of result ≡ code.on_two a b }
{
    on_two_to(a, b, 0)
}

/// Two temporaries and the label of a block.
pub(crate) fn on_two_to(a: u16, b: u16, label: u32) -> Operands
    ensures { open_of result ≡ two_and_label a b label }
{
    Operands {
        a: Cell::Temp(a),
        b: Cell::Temp(b),
        number: 0,
        symbol: 0,
        label: Lab::Block(label),
    }
}

/// The label of a block.
pub(crate) fn with_label(label: u32) -> Operands
    ensures { open_of result ≡ label_alone label }
{
    on_two_to(0, 0, label)
}

/// A temporary and a number.
pub(crate) fn with_number(a: u16, number: u32) -> Operands
    ensures { open_of result ≡ code.with_number a number }
{
    Operands {
        a: Cell::Temp(a),
        b: Cell::Temp(a),
        number,
        symbol: 0,
        label: Lab::Block(0),
    }
}

/// A temporary and an object.
pub(crate) fn with_symbol(a: u16, symbol: u16) -> Operands
    ensures { open_of result ≡ code.with_symbol a symbol }
{
    Operands {
        a: Cell::Temp(a),
        b: Cell::Temp(a),
        number: 0,
        symbol,
        label: Lab::Block(0),
    }
}

/// A function.
pub(crate) fn with_function(function: u16) -> Operands
    ensures { open_of result ≡ function_alone function }
{
    Operands {
        a: Cell::Temp(0),
        b: Cell::Temp(0),
        number: 0,
        symbol: 0,
        label: Lab::Function(function),
    }
}

/// The transfer of a shape that the description covers.
pub(crate) fn covered<W: Word>(
    alloc: Global,
    m: &Checked<W>,
    rows: &ShapeRows,
    pattern: Pattern,
    at: Operands,
) -> Result<Transfer, NoMemory>
    requires rows { AreShapeRows m.now rows.now }
    requires listed { is_listed pattern ≡ true }
    requires covered { IsPatternCovered m.now pattern }
    requires operands { AreOperands m.now pattern (open_of at) }
    ensures { IfOk result (IsMade m.now (fixed_in m.now rows.now) (shaped pattern (open_of at))) }
{
    transfer_of::<W>(alloc, m, rows, pattern, at)
}

/// The transfer of a shape that each description covers.
pub(crate) fn always_covered<W: Word>(
    alloc: Global,
    m: &Checked<W>,
    rows: &ShapeRows,
    pattern: Pattern,
    at: Operands,
) -> Result<Transfer, NoMemory>
    requires rows { AreShapeRows m.now rows.now }
    requires listed { is_listed pattern ≡ true }
    requires always { is_always (has_link m.now) pattern ≡ true }
    requires operands { AreOperands m.now pattern (open_of at) }
    ensures { IfOk result (IsMade m.now (fixed_in m.now rows.now) (shaped pattern (open_of at))) }
{
    required_covered();
    let _description = m.raw();
    covered::<W>(alloc, m, rows, pattern, at)
}

impl Builder {
    /// Puts the transfer of a shape on two temporaries, which the description covers, into the open block.
    pub(crate) fn put_covered<W: Word>(
        &mut self,
        alloc: Global,
        m: &Checked<W>,
        rows: &ShapeRows,
        pattern: Pattern,
        a: u16,
        b: u16,
    ) -> Result<(), NoMemory>
        requires rows { AreShapeRows m.now rows.now }
        requires listed { is_listed pattern ≡ true }
        requires body { ends_block pattern ≡ false }
        requires covered { IsPatternCovered m.now pattern }
        requires number { IsNumberOf (runs_of m.now.word pattern) 0 }
        ensures code { OnOk result (Puts m.now rows.now self.old (shaped pattern (code.on_two a b) ∷ []) self.new) }
        ensures homes { OnOk result (self.new.homes ≡ self.old.homes) }
        ensures labels { OnOk result (self.new.next_label ≡ self.old.next_label) }
    {
        let transfer = covered::<W>(alloc, m, rows, pattern, on_two(a, b))?;
        self.put(transfer)?;
        Ok(())
    }

    /// The same of a shape that each description covers.
    pub(crate) fn put_always<W: Word>(
        &mut self,
        alloc: Global,
        m: &Checked<W>,
        rows: &ShapeRows,
        pattern: Pattern,
        a: u16,
        b: u16,
    ) -> Result<(), NoMemory>
        requires rows { AreShapeRows m.now rows.now }
        requires listed { is_listed pattern ≡ true }
        requires body { ends_block pattern ≡ false }
        requires always { is_always (has_link m.now) pattern ≡ true }
        requires number { IsNumberOf (runs_of m.now.word pattern) 0 }
        ensures code { OnOk result (Puts m.now rows.now self.old (shaped pattern (code.on_two a b) ∷ []) self.new) }
        ensures homes { OnOk result (self.new.homes ≡ self.old.homes) }
        ensures labels { OnOk result (self.new.next_label ≡ self.old.next_label) }
    {
        let transfer = always_covered::<W>(alloc, m, rows, pattern, on_two(a, b))?;
        self.put(transfer)?;
        Ok(())
    }

    /// The same of one with a number.
    pub(crate) fn put_number<W: Word>(
        &mut self,
        alloc: Global,
        m: &Checked<W>,
        rows: &ShapeRows,
        pattern: Pattern,
        a: u16,
        number: u32,
    ) -> Result<(), NoMemory>
        requires rows { AreShapeRows m.now rows.now }
        requires listed { is_listed pattern ≡ true }
        requires body { ends_block pattern ≡ false }
        requires always { is_always (has_link m.now) pattern ≡ true }
        requires number { IsNumberOf (runs_of m.now.word pattern) number }
        ensures code { OnOk result (Puts m.now rows.now self.old (shaped pattern (code.with_number a number) ∷ []) self.new) }
        ensures homes { OnOk result (self.new.homes ≡ self.old.homes) }
        ensures labels { OnOk result (self.new.next_label ≡ self.old.next_label) }
    {
        let transfer = always_covered::<W>(alloc, m, rows, pattern, with_number(a, number))?;
        self.put(transfer)?;
        Ok(())
    }

    /// The same of one with an object.
    pub(crate) fn put_symbol<W: Word>(
        &mut self,
        alloc: Global,
        m: &Checked<W>,
        rows: &ShapeRows,
        pattern: Pattern,
        a: u16,
        symbol: u16,
    ) -> Result<(), NoMemory>
        requires rows { AreShapeRows m.now rows.now }
        requires listed { is_listed pattern ≡ true }
        requires body { ends_block pattern ≡ false }
        requires always { is_always (has_link m.now) pattern ≡ true }
        requires number { IsNumberOf (runs_of m.now.word pattern) 0 }
        ensures code { OnOk result (Puts m.now rows.now self.old (shaped pattern (code.with_symbol a symbol) ∷ []) self.new) }
        ensures homes { OnOk result (self.new.homes ≡ self.old.homes) }
        ensures labels { OnOk result (self.new.next_label ≡ self.old.next_label) }
    {
        let transfer = always_covered::<W>(alloc, m, rows, pattern, with_symbol(a, symbol))?;
        self.put(transfer)?;
        Ok(())
    }
}

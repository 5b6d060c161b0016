//! Operations that go by what the description covers. Each answers want of memory alone, and then the builder is spent.

ghost use Rattle.std.specs.Prelude.{◌≡◌, [], ◌∷◌, OnOk};
ghost use Rattle.rtl_word.specs.Words.{IsWordSize};
ghost use Rattle.rtl_tree.specs.declared.expressions.BinOp.TheVariants.{And, Shl, Shr};
ghost use Rattle.md_shapes.specs.declared.patterns.Pattern.TheVariants.{Clear, Complement, Operate};
ghost use Rattle.temp_shapes.specs.Rows.{AreShapeRows, IsPatternCovered};
ghost use Rattle.naive_code.specs.Operations as code;
ghost use Rattle.naive_run.specs.Standing.{doubled, log_bytes, shaped, shifted, shifted_twice, stored_and_loaded};
ghost use Rattle.naive_builder.specs.Appending.{Emits, Puts};

use crate::builder::Builder;
use crate::coverage::is_covered;
use md_check::Checked;
use md_shapes::Pattern;
use rtl_tree::{BinOp, NoMemory};
use rtl_word::Word;
use std::alloc::Global;
use temp_laws::required_covered;
use temp_shapes::ShapeRows;

// The bits of a word.
fn word_bits<W: Word>(m: &Checked<W>) -> u32
    ensures word { result ≡ m.now.word }
    ensures size { IsWordSize m.now.word }
{
    m.raw().word
}

// The exponent of 2 of a word's bytes.
fn log_bytes(bits: u32) -> u32
    ensures { result ≡ log_bytes bits }
{
    if bits == 16 { 1 } else { 2 }
}

impl Builder {
    /// `b = (not b)`, and the bits of a that are not in it stay.
    fn clear<W: Word>(
        &mut self,
        alloc: Global,
        m: &Checked<W>,
        rows: &ShapeRows,
        a: u16,
        b: u16,
    ) -> Result<(), NoMemory>
        requires rows { AreShapeRows m.now rows.now }
        requires uncovered { IsPatternCovered m.now (Operate And) → ⊥ }
        ensures code { OnOk result (Puts m.now rows.now self.old (shaped Complement (code.on_two b b) ∷ shaped Clear (code.on_two a b) ∷ []) self.new) }
        ensures homes { OnOk result (self.new.homes ≡ self.old.homes) }
        ensures labels { OnOk result (self.new.next_label ≡ self.old.next_label) }
    {
        required_covered();
        let _description = m.raw();
        self.put_always::<W>(alloc, m, rows, Pattern::Complement, b, b)?;
        self.put_covered::<W>(alloc, m, rows, Pattern::Clear, a, b)?;
        Ok(())
    }

    /// a has the bits that it has in common with b, by `&` or by a complement, which b is left with.
    pub fn meet<W: Word>(
        &mut self,
        alloc: Global,
        m: &Checked<W>,
        rows: &ShapeRows,
        a: u16,
        b: u16,
    ) -> Result<(), NoMemory>
        requires rows { AreShapeRows m.now rows.now }
        ensures code { OnOk result (Emits m.now rows.now self.old (code.Meet a b ∷ []) self.new) }
        ensures homes { OnOk result (self.new.homes ≡ self.old.homes) }
        ensures labels { OnOk result (self.new.next_label ≡ self.old.next_label) }
    {
        if is_covered(rows, Pattern::Operate(BinOp::And)) {
            self.put_covered::<W>(alloc, m, rows, Pattern::Operate(BinOp::And), a, b)?;
            return Ok(());
        }
        self.clear::<W>(alloc, m, rows, a, b)?;
        Ok(())
    }

    /// A shift to the left by the exponent of a word's bytes.
    fn shift<W: Word>(
        &mut self,
        alloc: Global,
        m: &Checked<W>,
        rows: &ShapeRows,
        a: u16,
        spare: u16,
    ) -> Result<(), NoMemory>
        requires rows { AreShapeRows m.now rows.now }
        requires covered { IsPatternCovered m.now (Operate Shl) }
        ensures code { OnOk result (Puts m.now rows.now self.old (shifted m.now.word a spare) self.new) }
        ensures homes { OnOk result (self.new.homes ≡ self.old.homes) }
        ensures labels { OnOk result (self.new.next_label ≡ self.old.next_label) }
    {
        let places = log_bytes(word_bits::<W>(m));
        self.put_number::<W>(alloc, m, rows, Pattern::SetNumber, spare, places)?;
        self.put_covered::<W>(alloc, m, rows, Pattern::Operate(BinOp::Shl), a, spare)?;
        Ok(())
    }

    /// a is added to itself, twice where a word has four bytes.
    fn double<W: Word>(
        &mut self,
        alloc: Global,
        m: &Checked<W>,
        rows: &ShapeRows,
        a: u16,
    ) -> Result<(), NoMemory>
        requires rows { AreShapeRows m.now rows.now }
        ensures code { OnOk result (Puts m.now rows.now self.old (doubled m.now.word a) self.new) }
        ensures homes { OnOk result (self.new.homes ≡ self.old.homes) }
        ensures labels { OnOk result (self.new.next_label ≡ self.old.next_label) }
    {
        self.put_always::<W>(alloc, m, rows, Pattern::Operate(BinOp::Add), a, a)?;
        if word_bits::<W>(m) == 16 {
            return Ok(());
        }
        self.put_always::<W>(alloc, m, rows, Pattern::Operate(BinOp::Add), a, a)?;
        Ok(())
    }

    /// a times the bytes of a word, by a shift or by adding; `spare` is used up.
    pub fn scale<W: Word>(
        &mut self,
        alloc: Global,
        m: &Checked<W>,
        rows: &ShapeRows,
        a: u16,
        spare: u16,
    ) -> Result<(), NoMemory>
        requires rows { AreShapeRows m.now rows.now }
        ensures code { OnOk result (Emits m.now rows.now self.old (code.Scale a spare ∷ []) self.new) }
        ensures homes { OnOk result (self.new.homes ≡ self.old.homes) }
        ensures labels { OnOk result (self.new.next_label ≡ self.old.next_label) }
    {
        if is_covered(rows, Pattern::Operate(BinOp::Shl)) {
            self.shift::<W>(alloc, m, rows, a, spare)?;
            return Ok(());
        }
        self.double::<W>(alloc, m, rows, a)?;
        Ok(())
    }

    /// The low byte goes up and down again.
    fn shift_twice<W: Word>(
        &mut self,
        alloc: Global,
        m: &Checked<W>,
        rows: &ShapeRows,
        a: u16,
        spare: u16,
    ) -> Result<(), NoMemory>
        requires rows { AreShapeRows m.now rows.now }
        requires left { IsPatternCovered m.now (Operate Shl) }
        requires right { IsPatternCovered m.now (Operate Shr) }
        ensures code { OnOk result (Puts m.now rows.now self.old (shifted_twice m.now.word a spare) self.new) }
        ensures homes { OnOk result (self.new.homes ≡ self.old.homes) }
        ensures labels { OnOk result (self.new.next_label ≡ self.old.next_label) }
    {
        let places = word_bits::<W>(m) - 8;
        self.put_number::<W>(alloc, m, rows, Pattern::SetNumber, spare, places)?;
        self.put_covered::<W>(alloc, m, rows, Pattern::Operate(BinOp::Shl), a, spare)?;
        self.put_covered::<W>(alloc, m, rows, Pattern::Operate(BinOp::Shr), a, spare)?;
        Ok(())
    }

    /// The low byte is stored as the lowest of the outgoing arguments, and loaded with its sign.
    fn store_and_load<W: Word>(
        &mut self,
        alloc: Global,
        m: &Checked<W>,
        rows: &ShapeRows,
        a: u16,
        spare: u16,
    ) -> Result<(), NoMemory>
        requires rows { AreShapeRows m.now rows.now }
        ensures code { OnOk result (Puts m.now rows.now self.old (stored_and_loaded a spare) self.new) }
        ensures homes { OnOk result (self.new.homes ≡ self.old.homes) }
        ensures labels { OnOk result (self.new.next_label ≡ self.old.next_label) }
    {
        self.put_always::<W>(alloc, m, rows, Pattern::ReadStack, spare, spare)?;
        self.put_always::<W>(alloc, m, rows, Pattern::StoreByte, spare, a)?;
        self.put_always::<W>(alloc, m, rows, Pattern::LoadByte, a, spare)?;
        Ok(())
    }

    /// a becomes its low byte with that byte's sign, by the shape for it, by shifts, or through the outgoing arguments; `spare` is
    /// used up.
    pub fn extend<W: Word>(
        &mut self,
        alloc: Global,
        m: &Checked<W>,
        rows: &ShapeRows,
        a: u16,
        spare: u16,
    ) -> Result<(), NoMemory>
        requires rows { AreShapeRows m.now rows.now }
        ensures code { OnOk result (Emits m.now rows.now self.old (code.Extend a spare ∷ []) self.new) }
        ensures homes { OnOk result (self.new.homes ≡ self.old.homes) }
        ensures labels { OnOk result (self.new.next_label ≡ self.old.next_label) }
    {
        if is_covered(rows, Pattern::ExtendByte) {
            self.put_covered::<W>(alloc, m, rows, Pattern::ExtendByte, a, a)?;
            return Ok(());
        }
        if is_covered(rows, Pattern::Operate(BinOp::Shl))
            && is_covered(rows, Pattern::Operate(BinOp::Shr))
        {
            self.shift_twice::<W>(alloc, m, rows, a, spare)?;
            return Ok(());
        }
        self.store_and_load::<W>(alloc, m, rows, a, spare)?;
        Ok(())
    }
}

//! Operations of one transfer. Each answers want of memory alone, and then the builder is spent.

ghost use Rattle.std.specs.Prelude.{◌≡◌, ◌^◌, ◌<◌, [], ◌∷◌, OnOk, false, true};
ghost use Rattle.md_check.specs.Accepted.{has_link};
ghost use Rattle.md_covers.specs.Numbers.{IsNumberOf, runs_of};
ghost use Rattle.md_shapes.specs.declared.patterns.Pattern.TheVariants.{LoadHome};
ghost use Rattle.temp_shapes.specs.Patterns.{is_listed};
ghost use Rattle.temp_shapes.specs.Rows.{AreShapeRows};
ghost use Rattle.temp_laws.specs.Covered.{is_always};
ghost use Rattle.temp_laws.specs.Doing.{ends_block};
ghost use Rattle.naive_code.specs.Operations as code;
ghost use Rattle.naive_builder.specs.Covered.{IsUsable};
ghost use Rattle.naive_builder.specs.Appending.{Emits};

use crate::builder::Builder;
use md_check::Checked;
use md_shapes::Pattern;
use rtl_tree::{BinOp, NoMemory};
use rtl_word::Word;
use std::alloc::Global;
use temp_laws::required_covered;
use temp_shapes::ShapeRows;

impl Builder {
    fn apply<W: Word>(
        &mut self,
        alloc: Global,
        m: &Checked<W>,
        rows: &ShapeRows,
        pattern: Pattern,
        a: u16,
        b: u16,
    ) -> Result<(), NoMemory>
        requires rows { AreShapeRows m.now rows.now }
        requires listed { is_listed pattern ≡ true }
        requires body { ends_block pattern ≡ false }
        requires always { is_always (has_link m.now) pattern ≡ true }
        requires number { IsNumberOf (runs_of m.now.word pattern) 0 }
        ensures code { OnOk result (Emits m.now rows.now self.old (code.Make pattern (code.on_two a b) ∷ []) self.new) }
        ensures homes { OnOk result (self.new.homes ≡ self.old.homes) }
        ensures labels { OnOk result (self.new.next_label ≡ self.old.next_label) }
    {
        self.put_always::<W>(alloc, m, rows, pattern, a, b)?;
        Ok(())
    }

    fn apply_number<W: Word>(
        &mut self,
        alloc: Global,
        m: &Checked<W>,
        rows: &ShapeRows,
        pattern: Pattern,
        a: u16,
        number: u32,
    ) -> Result<(), NoMemory>
        requires rows { AreShapeRows m.now rows.now }
        requires listed { is_listed pattern ≡ true }
        requires body { ends_block pattern ≡ false }
        requires always { is_always (has_link m.now) pattern ≡ true }
        requires number { IsNumberOf (runs_of m.now.word pattern) number }
        ensures code { OnOk result (Emits m.now rows.now self.old (code.Make pattern (code.with_number a number) ∷ []) self.new) }
        ensures homes { OnOk result (self.new.homes ≡ self.old.homes) }
        ensures labels { OnOk result (self.new.next_label ≡ self.old.next_label) }
    {
        self.put_number::<W>(alloc, m, rows, pattern, a, number)?;
        Ok(())
    }

    /// `a = b`
    pub fn copy<W: Word>(
        &mut self,
        alloc: Global,
        m: &Checked<W>,
        rows: &ShapeRows,
        a: u16,
        b: u16,
    ) -> Result<(), NoMemory>
        requires rows { AreShapeRows m.now rows.now }
        ensures code { OnOk result (Emits m.now rows.now self.old (code.copy a b ∷ []) self.new) }
        ensures homes { OnOk result (self.new.homes ≡ self.old.homes) }
        ensures labels { OnOk result (self.new.next_label ≡ self.old.next_label) }
    {
        self.apply::<W>(alloc, m, rows, Pattern::Copy, a, b)
    }

    /// `a = number`, a word
    pub fn constant<W: Word>(
        &mut self,
        alloc: Global,
        m: &Checked<W>,
        rows: &ShapeRows,
        a: u16,
        number: u32,
    ) -> Result<(), NoMemory>
        requires rows { AreShapeRows m.now rows.now }
        requires word { number < 2 ^ m.now.word }
        ensures code { OnOk result (Emits m.now rows.now self.old (code.constant a number ∷ []) self.new) }
        ensures homes { OnOk result (self.new.homes ≡ self.old.homes) }
        ensures labels { OnOk result (self.new.next_label ≡ self.old.next_label) }
    {
        self.apply_number::<W>(alloc, m, rows, Pattern::SetNumber, a, number)
    }

    /// `a` becomes the address of an object, which is told by its place among the names.
    pub fn address<W: Word>(
        &mut self,
        alloc: Global,
        m: &Checked<W>,
        rows: &ShapeRows,
        a: u16,
        symbol: u16,
    ) -> Result<(), NoMemory>
        requires rows { AreShapeRows m.now rows.now }
        ensures code { OnOk result (Emits m.now rows.now self.old (code.address a symbol ∷ []) self.new) }
        ensures homes { OnOk result (self.new.homes ≡ self.old.homes) }
        ensures labels { OnOk result (self.new.next_label ≡ self.old.next_label) }
    {
        self.put_symbol::<W>(alloc, m, rows, Pattern::SetSymbol, a, symbol)?;
        Ok(())
    }

    /// `a = M[b]`
    pub fn load<W: Word>(
        &mut self,
        alloc: Global,
        m: &Checked<W>,
        rows: &ShapeRows,
        a: u16,
        b: u16,
    ) -> Result<(), NoMemory>
        requires rows { AreShapeRows m.now rows.now }
        ensures code { OnOk result (Emits m.now rows.now self.old (code.load a b ∷ []) self.new) }
        ensures homes { OnOk result (self.new.homes ≡ self.old.homes) }
        ensures labels { OnOk result (self.new.next_label ≡ self.old.next_label) }
    {
        self.apply::<W>(alloc, m, rows, Pattern::Load, a, b)
    }

    /// `M[a] = b`
    pub fn store<W: Word>(
        &mut self,
        alloc: Global,
        m: &Checked<W>,
        rows: &ShapeRows,
        a: u16,
        b: u16,
    ) -> Result<(), NoMemory>
        requires rows { AreShapeRows m.now rows.now }
        ensures code { OnOk result (Emits m.now rows.now self.old (code.store a b ∷ []) self.new) }
        ensures homes { OnOk result (self.new.homes ≡ self.old.homes) }
        ensures labels { OnOk result (self.new.next_label ≡ self.old.next_label) }
    {
        self.apply::<W>(alloc, m, rows, Pattern::Store, a, b)
    }

    /// `a = (sxb B[b])`
    pub fn load_byte<W: Word>(
        &mut self,
        alloc: Global,
        m: &Checked<W>,
        rows: &ShapeRows,
        a: u16,
        b: u16,
    ) -> Result<(), NoMemory>
        requires rows { AreShapeRows m.now rows.now }
        ensures code { OnOk result (Emits m.now rows.now self.old (code.load_byte a b ∷ []) self.new) }
        ensures homes { OnOk result (self.new.homes ≡ self.old.homes) }
        ensures labels { OnOk result (self.new.next_label ≡ self.old.next_label) }
    {
        self.apply::<W>(alloc, m, rows, Pattern::LoadByte, a, b)
    }

    /// `B[a] = b`
    pub fn store_byte<W: Word>(
        &mut self,
        alloc: Global,
        m: &Checked<W>,
        rows: &ShapeRows,
        a: u16,
        b: u16,
    ) -> Result<(), NoMemory>
        requires rows { AreShapeRows m.now rows.now }
        ensures code { OnOk result (Emits m.now rows.now self.old (code.store_byte a b ∷ []) self.new) }
        ensures homes { OnOk result (self.new.homes ≡ self.old.homes) }
        ensures labels { OnOk result (self.new.next_label ≡ self.old.next_label) }
    {
        self.apply::<W>(alloc, m, rows, Pattern::StoreByte, a, b)
    }

    /// `a = (a operator b)`
    pub fn operate<W: Word>(
        &mut self,
        alloc: Global,
        m: &Checked<W>,
        rows: &ShapeRows,
        operator: BinOp,
        a: u16,
        b: u16,
    ) -> Result<(), NoMemory>
        requires rows { AreShapeRows m.now rows.now }
        requires operator { IsUsable m.now operator }
        ensures code { OnOk result (Emits m.now rows.now self.old (code.operate operator a b ∷ []) self.new) }
        ensures homes { OnOk result (self.new.homes ≡ self.old.homes) }
        ensures labels { OnOk result (self.new.next_label ≡ self.old.next_label) }
    {
        required_covered();
        let _description = m.raw();
        self.put_covered::<W>(alloc, m, rows, Pattern::Operate(operator), a, b)?;
        Ok(())
    }

    /// `a = (a + b)`
    pub fn add<W: Word>(
        &mut self,
        alloc: Global,
        m: &Checked<W>,
        rows: &ShapeRows,
        a: u16,
        b: u16,
    ) -> Result<(), NoMemory>
        requires rows { AreShapeRows m.now rows.now }
        ensures code { OnOk result (Emits m.now rows.now self.old (code.add a b ∷ []) self.new) }
        ensures homes { OnOk result (self.new.homes ≡ self.old.homes) }
        ensures labels { OnOk result (self.new.next_label ≡ self.old.next_label) }
    {
        self.apply::<W>(alloc, m, rows, Pattern::Operate(BinOp::Add), a, b)
    }

    /// `a = (not a)`
    pub fn complement<W: Word>(
        &mut self,
        alloc: Global,
        m: &Checked<W>,
        rows: &ShapeRows,
        a: u16,
    ) -> Result<(), NoMemory>
        requires rows { AreShapeRows m.now rows.now }
        ensures code { OnOk result (Emits m.now rows.now self.old (code.complement a ∷ []) self.new) }
        ensures homes { OnOk result (self.new.homes ≡ self.old.homes) }
        ensures labels { OnOk result (self.new.next_label ≡ self.old.next_label) }
    {
        self.apply::<W>(alloc, m, rows, Pattern::Complement, a, a)
    }

    /// `a = s`, the stack register
    pub fn read_stack<W: Word>(
        &mut self,
        alloc: Global,
        m: &Checked<W>,
        rows: &ShapeRows,
        a: u16,
    ) -> Result<(), NoMemory>
        requires rows { AreShapeRows m.now rows.now }
        ensures code { OnOk result (Emits m.now rows.now self.old (code.read_stack a ∷ []) self.new) }
        ensures homes { OnOk result (self.new.homes ≡ self.old.homes) }
        ensures labels { OnOk result (self.new.next_label ≡ self.old.next_label) }
    {
        self.apply::<W>(alloc, m, rows, Pattern::ReadStack, a, a)
    }

    /// `a = M[(s + number)]`, for an offset of a word in a frame and what lies above it
    pub fn load_home<W: Word>(
        &mut self,
        alloc: Global,
        m: &Checked<W>,
        rows: &ShapeRows,
        a: u16,
        number: u32,
    ) -> Result<(), NoMemory>
        requires rows { AreShapeRows m.now rows.now }
        requires offset { IsNumberOf (runs_of m.now.word LoadHome) number }
        ensures code { OnOk result (Emits m.now rows.now self.old (code.load_home a number ∷ []) self.new) }
        ensures homes { OnOk result (self.new.homes ≡ self.old.homes) }
        ensures labels { OnOk result (self.new.next_label ≡ self.old.next_label) }
    {
        self.apply_number::<W>(alloc, m, rows, Pattern::LoadHome, a, number)
    }

    /// `M[(s + number)] = a`
    pub fn store_home<W: Word>(
        &mut self,
        alloc: Global,
        m: &Checked<W>,
        rows: &ShapeRows,
        a: u16,
        number: u32,
    ) -> Result<(), NoMemory>
        requires rows { AreShapeRows m.now rows.now }
        requires offset { IsNumberOf (runs_of m.now.word LoadHome) number }
        ensures code { OnOk result (Emits m.now rows.now self.old (code.store_home a number ∷ []) self.new) }
        ensures homes { OnOk result (self.new.homes ≡ self.old.homes) }
        ensures labels { OnOk result (self.new.next_label ≡ self.old.next_label) }
    {
        self.apply_number::<W>(alloc, m, rows, Pattern::StoreHome, a, number)
    }

    /// `M[s] = a`
    pub fn store_top<W: Word>(
        &mut self,
        alloc: Global,
        m: &Checked<W>,
        rows: &ShapeRows,
        a: u16,
    ) -> Result<(), NoMemory>
        requires rows { AreShapeRows m.now rows.now }
        ensures code { OnOk result (Emits m.now rows.now self.old (code.store_top a ∷ []) self.new) }
        ensures homes { OnOk result (self.new.homes ≡ self.old.homes) }
        ensures labels { OnOk result (self.new.next_label ≡ self.old.next_label) }
    {
        self.apply::<W>(alloc, m, rows, Pattern::StoreTop, a, a)
    }

    /// The next byte of the input, or -1, comes to the result register.
    pub fn take_input<W: Word>(
        &mut self,
        alloc: Global,
        m: &Checked<W>,
        rows: &ShapeRows,
    ) -> Result<(), NoMemory>
        requires rows { AreShapeRows m.now rows.now }
        ensures code { OnOk result (Emits m.now rows.now self.old (code.take_input ∷ []) self.new) }
        ensures homes { OnOk result (self.new.homes ≡ self.old.homes) }
        ensures labels { OnOk result (self.new.next_label ≡ self.old.next_label) }
    {
        self.apply::<W>(alloc, m, rows, Pattern::TakeInput, 0, 0)
    }

    /// The low byte of the result register goes to the output.
    pub fn put_output<W: Word>(
        &mut self,
        alloc: Global,
        m: &Checked<W>,
        rows: &ShapeRows,
    ) -> Result<(), NoMemory>
        requires rows { AreShapeRows m.now rows.now }
        ensures code { OnOk result (Emits m.now rows.now self.old (code.put_output ∷ []) self.new) }
        ensures homes { OnOk result (self.new.homes ≡ self.old.homes) }
        ensures labels { OnOk result (self.new.next_label ≡ self.old.next_label) }
    {
        self.apply::<W>(alloc, m, rows, Pattern::PutOutput, 0, 0)
    }

    /// `a = q`, the result register
    pub fn read_result<W: Word>(
        &mut self,
        alloc: Global,
        m: &Checked<W>,
        rows: &ShapeRows,
        a: u16,
    ) -> Result<(), NoMemory>
        requires rows { AreShapeRows m.now rows.now }
        ensures code { OnOk result (Emits m.now rows.now self.old (code.read_result a ∷ []) self.new) }
        ensures homes { OnOk result (self.new.homes ≡ self.old.homes) }
        ensures labels { OnOk result (self.new.next_label ≡ self.old.next_label) }
    {
        self.apply::<W>(alloc, m, rows, Pattern::ReadResult, a, a)
    }

    /// `q = a`
    pub fn set_result<W: Word>(
        &mut self,
        alloc: Global,
        m: &Checked<W>,
        rows: &ShapeRows,
        a: u16,
    ) -> Result<(), NoMemory>
        requires rows { AreShapeRows m.now rows.now }
        ensures code { OnOk result (Emits m.now rows.now self.old (code.set_result a ∷ []) self.new) }
        ensures homes { OnOk result (self.new.homes ≡ self.old.homes) }
        ensures labels { OnOk result (self.new.next_label ≡ self.old.next_label) }
    {
        self.apply::<W>(alloc, m, rows, Pattern::SetResult, a, a)
    }
}

//! The ends of blocks. Each opens the block behind, whose label it is given, answers want of memory alone, and then leaves the builder
//! spent.

ghost use Rattle.std.specs.Prelude.{◌≡◌, [], ◌∷◌, OnOk};
ghost use Rattle.md_rows.specs.declared.description.RawDescription.{RawDescription as Description};
ghost use Rattle.temp_shapes.specs.declared.rows.ShapeRows.{ShapeRows as Table};
ghost use Rattle.md_shapes.specs.declared.patterns.Pattern.TheVariants.{Branch};
ghost use Rattle.temp_shapes.specs.Rows.{AreShapeRows, IsPatternCovered};
ghost use Rattle.naive_code.specs.Operations as code;
ghost use Rattle.naive_builder.specs.Covered.{IsFlagOf};
ghost use Rattle.naive_builder.specs.Appending.{Emits};

use crate::builder::Builder;
use crate::coverage::{flag_for, is_covered};
use crate::instructions::{always_covered, covered, on_two_to, with_function, with_label};
use md_check::Checked;
use md_shapes::Pattern;
use rtl_tree::NoMemory;
use rtl_word::{Rel, Word};
use std::alloc::Global;
use temp_code::End;
use temp_laws::required_covered;
use temp_shapes::ShapeRows;

impl Builder {
    /// The block goes on to the one that is opened.
    pub fn fall(&mut self, alloc: Global, opened: u32) -> Result<(), NoMemory>
        ensures code { OnOk result ((d : Description) (rows : Table) → Emits d rows self.old (code.Close code.Falls opened ∷ []) self.new) }
        ensures homes { OnOk result (self.new.homes ≡ self.old.homes) }
        ensures labels { OnOk result (self.new.next_label ≡ self.old.next_label) }
    {
        self.close(alloc, End::Fall, opened)?;
        Ok(())
    }

    /// The block jumps to a label.
    pub fn jump<W: Word>(
        &mut self,
        alloc: Global,
        m: &Checked<W>,
        rows: &ShapeRows,
        target: u32,
        opened: u32,
    ) -> Result<(), NoMemory>
        requires rows { AreShapeRows m.now rows.now }
        ensures code { OnOk result (Emits m.now rows.now self.old (code.Close (code.Jumps target) opened ∷ []) self.new) }
        ensures homes { OnOk result (self.new.homes ≡ self.old.homes) }
        ensures labels { OnOk result (self.new.next_label ≡ self.old.next_label) }
    {
        let transfer = always_covered::<W>(alloc, m, rows, Pattern::Jump, with_label(target))?;
        self.close(alloc, End::Jump(transfer), opened)?;
        Ok(())
    }

    fn branch_by<W: Word>(
        &mut self,
        alloc: Global,
        m: &Checked<W>,
        rows: &ShapeRows,
        relation: Rel,
        flag: u8,
        a: u16,
        b: u16,
        target: u32,
        opened: u32,
    ) -> Result<(), NoMemory>
        requires rows { AreShapeRows m.now rows.now }
        requires flag { IsFlagOf m.now relation flag }
        ensures code { OnOk result (Emits m.now rows.now self.old (code.Close (code.Branches relation a b target) opened ∷ []) self.new) }
        ensures homes { OnOk result (self.new.homes ≡ self.old.homes) }
        ensures labels { OnOk result (self.new.next_label ≡ self.old.next_label) }
    {
        let at = on_two_to(a, b, target);
        let compare = covered::<W>(alloc, m, rows, Pattern::Compare(flag), at)?;
        let jump = covered::<W>(alloc, m, rows, Pattern::BranchByFlag(relation, flag), at)?;
        self.put(compare)?;
        self.close(alloc, End::Branch(jump), opened)?;
        Ok(())
    }

    fn branch_directly<W: Word>(
        &mut self,
        alloc: Global,
        m: &Checked<W>,
        rows: &ShapeRows,
        relation: Rel,
        a: u16,
        b: u16,
        target: u32,
        opened: u32,
    ) -> Result<(), NoMemory>
        requires rows { AreShapeRows m.now rows.now }
        requires covered { IsPatternCovered m.now (Branch relation) }
        ensures code { OnOk result (Emits m.now rows.now self.old (code.Close (code.Branches relation a b target) opened ∷ []) self.new) }
        ensures homes { OnOk result (self.new.homes ≡ self.old.homes) }
        ensures labels { OnOk result (self.new.next_label ≡ self.old.next_label) }
    {
        let at = on_two_to(a, b, target);
        let jump = covered::<W>(alloc, m, rows, Pattern::Branch(relation), at)?;
        self.close(alloc, End::Branch(jump), opened)?;
        Ok(())
    }

    /// The block goes to a label where a relation holds of two temporaries, and else on, by one jump or by a flag.
    pub fn branch<W: Word>(
        &mut self,
        alloc: Global,
        m: &Checked<W>,
        rows: &ShapeRows,
        relation: Rel,
        a: u16,
        b: u16,
        target: u32,
        opened: u32,
    ) -> Result<(), NoMemory>
        requires rows { AreShapeRows m.now rows.now }
        ensures code { OnOk result (Emits m.now rows.now self.old (code.Close (code.Branches relation a b target) opened ∷ []) self.new) }
        ensures homes { OnOk result (self.new.homes ≡ self.old.homes) }
        ensures labels { OnOk result (self.new.next_label ≡ self.old.next_label) }
    {
        required_covered();
        let _description = m.raw();
        if is_covered(rows, Pattern::Branch(relation)) {
            return self.branch_directly::<W>(alloc, m, rows, relation, a, b, target, opened);
        }
        let Some(flag) = flag_for(rows, relation) else {
            unreachable!();
        };
        self.branch_by::<W>(alloc, m, rows, relation, flag, a, b, target, opened)
    }

    /// The block calls a function, which is told by its place among the names, and goes on.
    pub fn call<W: Word>(
        &mut self,
        alloc: Global,
        m: &Checked<W>,
        rows: &ShapeRows,
        function: u16,
        opened: u32,
    ) -> Result<(), NoMemory>
        requires rows { AreShapeRows m.now rows.now }
        ensures code { OnOk result (Emits m.now rows.now self.old (code.Close (code.Calls function) opened ∷ []) self.new) }
        ensures homes { OnOk result (self.new.homes ≡ self.old.homes) }
        ensures labels { OnOk result (self.new.next_label ≡ self.old.next_label) }
    {
        let transfer = always_covered::<W>(alloc, m, rows, Pattern::Call, with_function(function))?;
        self.close(alloc, End::Call(transfer), opened)?;
        Ok(())
    }

    /// The block returns.
    pub fn leave(&mut self, alloc: Global, opened: u32) -> Result<(), NoMemory>
        ensures code { OnOk result ((d : Description) (rows : Table) → Emits d rows self.old (code.Close code.Returns opened ∷ []) self.new) }
        ensures homes { OnOk result (self.new.homes ≡ self.old.homes) }
        ensures labels { OnOk result (self.new.next_label ≡ self.old.next_label) }
    {
        self.close(alloc, End::Return, opened)?;
        Ok(())
    }
}

//! Which shapes the rows cover.

ghost use Rattle.std.specs.Prelude.{◌≡◌, ◌<◌, true};
ghost use Rattle.md_rows.specs.declared.description.RawDescription.{RawDescription as Description};
ghost use Rattle.temp_shapes.specs.Patterns.{is_listed};
ghost use Rattle.temp_shapes.specs.Rows.{AreShapeRows, IsPatternCovered};
ghost use Rattle.naive_builder.specs.Covered.{IsFlagFor, IsFlagOf, IsTold};

use md_shapes::Pattern;
use rtl_word::Rel;
use temp_shapes::ShapeRows;

/// Whether some row covers the shape of a pattern.
pub(crate) fn is_covered(rows: &ShapeRows, pattern: Pattern) -> bool
    requires { is_listed pattern ≡ true }
    ensures { (d : Description) → AreShapeRows d rows.now → IsTold (IsPatternCovered d pattern) result }
{
    rows.row_for(pattern).is_some()
}

fn is_flag_for(rows: &ShapeRows, relation: Rel, flag: u8) -> bool
    requires { flag < 8 }
    ensures { (d : Description) → AreShapeRows d rows.now → IsTold (IsFlagOf d relation flag) result }
{
    if !is_covered(rows, Pattern::Compare(flag)) {
        return false;
    }
    is_covered(rows, Pattern::BranchByFlag(relation, flag))
}

/// The first flag by which a comparison and a jump on a relation are covered.
pub(crate) fn flag_for(rows: &ShapeRows, relation: Rel) -> Option<u8>
    ensures { (d : Description) → AreShapeRows d rows.now → IsFlagFor d relation result }
{
    for flag in 0..8 {
        if is_flag_for(rows, relation, flag) {
            return Some(flag);
        }
    }
    None
}

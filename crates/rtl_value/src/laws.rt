//! Laws of values.

ghost use Rattle.rtl_value.specs.SubstitutionLaws.{PutIsSetCell, PutIsSetFlag};

/// What a substitution does to the value of a tree, for `rtl_tree::substitute`.
pub fn substitution_is_setting()
    ensures cell { PutIsSetCell }
    ensures flag { PutIsSetFlag }
{}

//! That the premises of the law can be met, and that one of them is needed.

ghost use Rattle.link_code.specs.Example.{PremisesAreMet, AllEndAlike, LabelsHaveToDiffer};

/// A program with a recursive function, for a machine with a link register and for one that pushes the place to return to.
pub fn premises_are_met()
    ensures { PremisesAreMet }
{}

/// Its routines, and both of its linked programs.
pub fn linked_programs_end_alike()
    ensures { AllEndAlike }
{}

/// Where a label stands in two routines, a linked program does something else.
pub fn labels_have_to_differ()
    ensures { LabelsHaveToDiffer }
{}

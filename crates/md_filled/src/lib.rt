//! What a row's normal form comes to once its holes are filled. The normal form is that of the row with its holes; it is not taken again
//! when they are filled, so that it stands for the filled row is a law of its own.
#![tactic(auto)]

ghost use Rattle.md_filled.specs.Law.{FilledFormIsSeen, FormIsFilled};
ghost use Rattle.md_filled.specs.Doing.{RowDoesAs};

/// In every view of words the normal form of a row's tree, filled, is seen as the tree filled is.
#[tactic(auto, using(crate::proofs::Seen::filled_form_seen))]
pub fn filled_form_is_seen()
    ensures { FilledFormIsSeen }
{}

/// Where no hole for a number is left in the normal form, as in the value of a jump to a label, the filled tree has the normal form that
/// is filled.
#[tactic(auto, using(crate::proofs::Commuting::form_filled))]
pub fn form_is_filled()
    ensures { FormIsFilled }
{}

/// A row that does a transfer, its other assignments going to flags and trapping only where a marked one does, makes with its binding a
/// transfer that does the same.
#[tactic(auto, using(crate::proofs::Doing::row_does_as))]
pub fn row_does_as()
    ensures { RowDoesAs }
{}

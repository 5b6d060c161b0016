//! What typing promises of its trees. The functions do nothing: each promises a law.

ghost use Rattle.naive_typed.specs.Laws.{TypedIsSound, TypedIsWithinWeight, TypedNamesScalars};

/// The typed tree of a source that breaks no rule is sound.
pub fn typed_is_sound()
    ensures { TypedIsSound }
{}

/// Its functions name no array but by its elements, as is asked where their naive code is counted.
pub fn typed_names_scalars()
    ensures { TypedNamesScalars }
{}

/// So the naive code of each has no more transfers than the function weighs, without the 16 that are for the passes.
pub fn typed_is_within_weight()
    ensures { TypedIsWithinWeight }
{
    naive_counts::laws::code_is_within_weight();
}

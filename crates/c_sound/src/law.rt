//! What soundness of trees promises. The functions do nothing: each promises a law.

ghost use Rattle.c_sound.specs.Laws.{MeantNeverActZero, TypedIsMeant, TypedNeverActZero};

/// A source of which each name, callee and constant means something comes to no act 0, whatever bytes it reads.
pub fn meant_never_act_zero()
    ensures { MeantNeverActZero }
{}

/// In the typed tree of a source that breaks no rule each of them means something.
pub fn typed_is_meant()
    ensures { TypedIsMeant }
{}

/// So no source that breaks no rule comes to act 0.
pub fn typed_never_act_zero()
    ensures { TypedNeverActZero }
{}

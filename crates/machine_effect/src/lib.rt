//! What the machine makes of a transfer is the effect of it: a turn on what the machine holds, given the byte that it takes of its input,
//! is a turn of the definition of its run, on that byte and all input that may follow.
#![tactic(auto)]

ghost use Rattle.machine_effect.specs.Law.{TurnIsTurn};

/// A turn on what is held is a turn of the definition, for each program, input and state.
pub fn turn_is_turn()
    ensures { TurnIsTurn }
{}

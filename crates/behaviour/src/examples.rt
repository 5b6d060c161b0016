// That the premises of the simulation lemmas can be met.

ghost use Rattle.behaviour.specs.Examples.{CountdownStutters};

/// The target takes one step in all, and the source as many as one likes.
pub fn countdown_stutters()
    ensures { CountdownStutters }
{}

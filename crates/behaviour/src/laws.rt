// Laws of runs.

ghost use Rattle.behaviour.specs.Laws.{ConstantIsRun, SameIsReflexive, SameIsTransitive, SameEndsAlike, ReachIsSame, FollowedIsSame, EndedIsSame, KeepIsReflexive, KeepIsTransitive, KeepKeepsSame};

/// For programs that need no bound, as those without loops and calls.
pub fn constant_is_run()
    ensures { ConstantIsRun }
{}

/// `Same` is reflexive on runs that never fail, and on no others.
pub fn same_is_reflexive()
    ensures { SameIsReflexive }
{}

pub fn same_is_transitive()
    ensures { SameIsTransitive }
{}

pub fn same_ends_alike()
    ensures { SameEndsAlike }
{}

/// The law by which every simulation is proved.
pub fn reach_is_same()
    ensures { ReachIsSame }
{}

/// For a source that is no machine, as one that is defined by recursion on its syntax.
pub fn followed_is_same()
    ensures { FollowedIsSame }
{}

/// For programs that are seen to end.
pub fn ended_is_same()
    ensures { EndedIsSame }
{}

pub fn keep_is_reflexive()
    ensures { KeepIsReflexive }
{}

pub fn keep_is_transitive()
    ensures { KeepIsTransitive }
{}

pub fn keep_keeps_same()
    ensures { KeepKeepsSame }
{}

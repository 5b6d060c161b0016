// Runs that are not the same, and what each part of the definitions is for.

ghost use Rattle.behaviour.specs.Counterexamples.{EndingIsNotRunning, StatusesDiffer, OutputsDiffer, FailedIsNoTarget, EndsAlikeIsNeeded, NothingElseIsNeeded, PrintsAllIsNeeded, KeepIsOfBytes};

pub fn ending_is_not_running()
    ensures { EndingIsNotRunning }
{}

pub fn statuses_differ()
    ensures { StatusesDiffer }
{}

pub fn outputs_differ()
    ensures { OutputsDiffer }
{}

pub fn failed_is_no_target()
    ensures { FailedIsNoTarget }
{}

/// Two parts of `Same` hold, and the first fails.
pub fn ends_alike_is_needed()
    ensures { EndsAlikeIsNeeded }
{}

/// Two parts of `Same` hold, and the second fails.
pub fn nothing_else_is_needed()
    ensures { NothingElseIsNeeded }
{}

/// Two parts of `Same` hold, and the third fails.
pub fn prints_all_is_needed()
    ensures { PrintsAllIsNeeded }
{}

/// `Keep` over all lists of numbers is a stronger relation, and one that a program which holds its input in bytes breaks.
pub fn keep_is_of_bytes()
    ensures { KeepIsOfBytes }
{}

//! Laws of runs of a machine.

ghost use Rattle.machine_run.specs.Laws.{MachineRunIsRun, NeverWild};

/// What a machine printed and how it stopped stays so with more turns.
pub fn is_run()
    ensures { MachineRunIsRun }
{}

/// Where each transfer is well formed and has no holes left, no run is wild.
pub fn never_wild()
    ensures { NeverWild }
{}

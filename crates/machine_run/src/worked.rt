//! What some programs do, worked out by hand.

ghost use Rattle.machine_run.specs.Worked.{CounterIsNext, FlagsAreLost, HoldsData, ReadsPastTheEnd, TrapKeepsPlace, TrapsWithoutInstruction};

/// Input behind its end, the start, traps and the program counter.
pub fn worked_runs()
    ensures reads_past_the_end { ReadsPastTheEnd }
    ensures holds_data { HoldsData }
    ensures trap_keeps_place { TrapKeepsPlace }
    ensures traps_without_instruction { TrapsWithoutInstruction }
    ensures flags_are_lost { FlagsAreLost }
    ensures counter_is_next { CounterIsNext }
{}

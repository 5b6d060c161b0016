//! Laws of the temporary machine.

ghost use Rattle.temp_machine.specs.Laws.{BlocksAreSmall, TemporaryRunIsRun};

/// What code printed and how it stopped stays so with more steps.
pub fn is_run()
    ensures { TemporaryRunIsRun }
{}

/// Where no transfer fails, the run by blocks does what the run by transfers does.
pub fn blocks_are_small()
    ensures { BlocksAreSmall }
{}

//! Laws of emitted code.

ghost use Rattle.naive_builder.specs.Finished.{FinishedDoesOperations};

use temp_laws::{bodies_do_shapes, calls_go, flag_branches_do_branches, transfers_do_shapes};

/// What operations append to one empty block does them place by place once it is finished, where each label is opened once.
pub fn finished_does_operations()
    ensures { FinishedDoesOperations }
{
    bodies_do_shapes();
    transfers_do_shapes();
    flag_branches_do_branches();
    calls_go();
}

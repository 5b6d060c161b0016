//! Laws of the loops of naive code.

ghost use Rattle.naive_loops.specs.Example.{PremisesAreMet};
ghost use Rattle.naive_loops.specs.Loops.{BuiltHasLoop};

use temp_laws::{branches_go, flag_branches_go, jumps_go};

/// What the operations of a loop append is a loop, whatever stands around it.
pub fn built_has_loop()
    ensures { BuiltHasLoop }
{
    jumps_go();
    branches_go();
    flag_branches_go();
}

/// The operations of `while(a)b=1;` have their loop.
pub fn premises_are_met()
    ensures { PremisesAreMet }
{}

//! Laws of the transfers of shapes, for code that is put together of them.
//!
//! The functions of this crate have no code. specs/Doing.antt says that a transfer of a shape does what the shape does; specs/Going.antt
//! where jumps, branches and calls go; specs/Keeping.antt which cells a transfer sets and names; specs/Covered.antt for which shapes each
//! accepted description has a row; and specs/Targets.antt what holds of its machine.
#![tactic(auto)]

ghost use Rattle.temp_laws.specs.Conditions.{ConditionsAreKept};
ghost use Rattle.temp_laws.specs.Covered.{RequiredAreCovered};
ghost use Rattle.temp_laws.specs.Doing.{BodiesDoShapes, FlagBranchesDoBranches, TransfersDoShapes};
ghost use Rattle.temp_laws.specs.Going.{BranchesGo, CallsGo, FlagBranchesGo, JumpsGo};
ghost use Rattle.temp_laws.specs.Keeping.{FlagsAreShapes, NamesAreShapes, SetsAreKept, SetsAreShapes};
ghost use Rattle.temp_laws.specs.Targets.{TargetsAreSound};

use md_bounds::said_is_bounded;
use md_covers::laws::general_bits_are_a_sum;
use md_said::{said_is_limited, said_is_sound};
use rtl_effect::effect_grows;

/// Wherever the transfer of a shape can be made on words, a transfer that is the shape's does the same, but for flags that the shape
/// doesn't assign. In code the value of the program counter is taken in its normal form.
pub fn transfers_do_shapes()
    ensures { TransfersDoShapes }
{
    said_is_sound();
    said_is_bounded();
}

/// In the body of a block it does so as it stands.
pub fn bodies_do_shapes()
    ensures { BodiesDoShapes }
{
    said_is_sound();
    said_is_bounded();
}

/// A comparison and then a branch by its flag do what the branch on the two operands does.
pub fn flag_branches_do_branches()
    ensures { FlagBranchesDoBranches }
{
    said_is_sound();
    said_is_bounded();
    effect_grows();
}

/// A jump goes to its label.
pub fn jumps_go()
    ensures { JumpsGo }
{
    said_is_sound();
    said_is_bounded();
}

/// A branch on two operands goes to its label.
pub fn branches_go()
    ensures { BranchesGo }
{
    said_is_sound();
    said_is_bounded();
}

/// A branch by a flag goes to its label.
pub fn flag_branches_go()
    ensures { FlagBranchesGo }
{
    said_is_sound();
    said_is_bounded();
}

/// A call goes to its function.
pub fn calls_go()
    ensures { CallsGo }
{
    said_is_sound();
    said_is_bounded();
}

/// A transfer of a shape sets the cells that the shape sets, and else flags alone.
pub fn sets_are_shapes()
    ensures { SetsAreShapes }
{
    said_is_sound();
    said_is_bounded();
}

/// It sets each cell that the shape sets, flags among them.
pub fn sets_are_kept()
    ensures { SetsAreKept }
{
    said_is_sound();
    said_is_bounded();
}

/// It names no temporary and no general register that the shape doesn't name.
pub fn names_are_shapes()
    ensures { NamesAreShapes }
{
    said_is_sound();
    said_is_bounded();
}

/// It reads no flag that the shape doesn't read.
pub fn flags_are_shapes()
    ensures { FlagsAreShapes }
{
    said_is_sound();
    said_is_bounded();
}

/// An accepted description covers each required shape.
pub fn required_covered()
    ensures { RequiredAreCovered }
{}

/// The machine of an accepted description is such as each pass may ask: its memory is made of words, and its stack register, result
/// register and link register are different and none of them is general.
pub fn targets_are_sound()
    ensures { TargetsAreSound }
{
    said_is_sound();
    said_is_limited();
    said_is_bounded();
    general_bits_are_a_sum();
}

/// Of a transfer of a shape on temporaries the conditions of code hold that are of one transfer alone: which cells it may set and name.
pub fn conditions_are_kept()
    ensures { ConditionsAreKept }
{
    said_is_sound();
    said_is_limited();
    said_is_bounded();
    general_bits_are_a_sum();
}

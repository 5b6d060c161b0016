//! Laws of rows for code that is coloured.
//!
//! The functions of this crate have no code. specs/Spilling says that rows found for the shapes of loads and stores do as loads and stores
//! of homes; specs/Calm that what a row loses of flags traps only where its other assignments do; specs/Registers that an instruction with
//! registers in place of its temporaries is one.
#![tactic(auto)]

ghost use Rattle.row_colors.specs.Calm.{BodiesAreCalm, CalmDoes, RowsAreCalm, ShapesAreCalm};
ghost use Rattle.row_colors.specs.Registers.{RealisedWithRegisters, RegistersPutIn};
ghost use Rattle.row_colors.specs.Spilling.{HomesAreNumbers, LoadsDo, StoresDo};

use md_bounds::said_is_bounded;
use md_said::said_is_sound;

/// A transfer of the shape that loads a home does as a load of it into its register.
pub fn loads_do()
    ensures { LoadsDo }
{
    said_is_sound();
    said_is_bounded();
}

/// One of the shape that stores to a home does as a store of its register.
pub fn stores_do()
    ensures { StoresDo }
{
    said_is_sound();
    said_is_bounded();
}

/// The offset of each home is a number of both shapes.
pub fn homes_are_numbers()
    ensures { HomesAreNumbers }
{}

/// A transfer that traps for unwanted flags only where it traps besides does as its core does, also with registers for its temporaries.
pub fn calm_does()
    ensures { CalmDoes }
{}

/// A transfer that a row does is calm where its assignments are wanted or can't trap.
pub fn rows_are_calm()
    ensures { RowsAreCalm }
{
    said_is_sound();
    said_is_bounded();
}

/// Transfers of shapes are calm, whatever flags are wanted.
pub fn shapes_are_calm()
    ensures { ShapesAreCalm }
{
    said_is_sound();
    said_is_bounded();
}

/// In the body of a block they are so as they stand.
pub fn bodies_are_calm()
    ensures { BodiesAreCalm }
{
    said_is_sound();
    said_is_bounded();
}

/// An instruction with registers in place of its temporaries is one of the same row, where no two that it sets become one.
pub fn registers_put_in()
    ensures { RegistersPutIn }
{
    said_is_sound();
    said_is_bounded();
}

/// So a transfer that an instruction makes is made by one with registers, too.
pub fn realised_with_registers()
    ensures { RealisedWithRegisters }
{
    said_is_sound();
    said_is_bounded();
}

//! What liveness asks of a machine and of a code.

ghost use Rattle.std.specs.Prelude.{◌≡◌, ◌<◌, ◌==◌, ◌||◌, ℕ};
ghost use Rattle.temp_machine.specs.Routines.{Routine, Target};
ghost use Rattle.temp_machine.specs.Cells.{has_temporaries as has_temporaries_in};
ghost use Rattle.flow_live.specs.Rows.{has_bit};
ghost use Rattle.flow_live.specs.Walks.{AreRolesOf, Stands};

use crate::rows::with_bit;

/// The stack register and that of the result, and the registers that are general and that a call keeps, with a bit for each.
#[derive(Clone, Copy, Debug)]
pub struct Roles {
    pub stack: u8,
    pub result: u8,
    pub general: u64,
    pub kept: u64,
}

/// The registers that are always live in a code and those that a call leaves as they are, with a bit for each, and the register of the result.
#[derive(Clone, Copy, Debug)]
pub struct Standing {
    pub always: u64,
    pub spared: u64,
    pub result: u8,
}

fn with_register(mask: u64, register: u8) -> u64
    ensures { (k : ℕ) → k < 64 → has_bit result k ≡ (has_bit mask k || (k == register)) }
{
    if register < 64 {
        with_bit(mask, u64::from(register))
    } else {
        mask
    }
}

/// Of a code in which temporaries stand or don't.
pub(crate) fn standing_of(roles: &Roles, has_temporaries: bool) -> Standing
    ensures { (t : Target) (r : Routine) → AreRolesOf t roles.now → has_temporaries ≡ has_temporaries_in r → Stands t r result }
{
    let general = if has_temporaries { roles.general } else { 0 };
    Standing {
        always: with_register(general, roles.stack),
        spared: with_register(roles.kept, roles.stack),
        result: roles.result,
    }
}

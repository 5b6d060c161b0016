//! The liveness of a code on a described machine.

ghost use Rattle.std.specs.Prelude.{◌≡◌, ℕ, IfOk, [], Some};
ghost use Rattle.std.specs.Option.{unwrap_or};
ghost use Rattle.temp_code.specs.Routines.{routine_of};
ghost use Rattle.md_rows.specs.declared.description.RawDescription.{RawDescription};
ghost use Rattle.md_shapes.specs.Shapes.{Frame};
ghost use Rattle.md_covers.specs.Covers.{first_with, frame_in, same_role};
ghost use Rattle.md_check.specs.Checking.{IsChecked};
ghost use Rattle.temp_laws.specs.Targets.{target_of};
ghost use Rattle.flow_blocks.specs.Flows.{IsFlow};
ghost use Rattle.flow_live.specs.Walks.{AreRolesOf};
ghost use Rattle.flow_live.specs.Tables.{IsLiveness};

use flow_blocks::Flow;
use flow_live::{Live, Roles, live_by};
use md_check::Checked;
use md_covers::general_bits;
use md_covers::laws::general_bits_are_a_sum;
use md_rows::{RawDescription, Register, Role};
use md_said::said_is_limited;
use rtl_tree::NoMemory;
use rtl_word::Word;
use std::alloc::Global;
use temp_code::Code;

fn is_same_role(a: Role, b: Role) -> bool
    ensures { result ≡ same_role a b }
{
    a == b
}

/// The number of the first register with a role, and 0 where there is none.
fn number_with(role: Role, registers: &[Register]) -> u8
    ensures { result ≡ unwrap_or (first_with role registers.now) 0 }
{
    for i in 0..registers.len() {
        let register = &registers[i];
        if is_same_role(register.role, role) {
            return register.number;
        }
    }
    0
}

/// The roles of a description's registers. No register is kept over a call.
fn roles_of(d: &RawDescription) -> Roles
    ensures { (w : ℕ) (frame : Frame) → IsChecked w d.now → frame_in d.now ≡ Some frame → AreRolesOf (target_of d.now frame []) result }
{
    said_is_limited();
    general_bits_are_a_sum();
    let registers = d.registers.as_slice();
    let stack = number_with(Role::Stack, registers);
    let result = number_with(Role::Result, registers);
    let general = general_bits(registers);
    Roles {
        stack,
        result,
        general,
        kept: 0,
    }
}

/// Which cells are dead at each place of a code whose flow is `f`. A code with a flag above 7, which no row has, is answered as want of memory.
pub fn live<W: Word>(alloc: Global, c: &Code, f: &Flow, m: &Checked<W>) -> Result<Live, NoMemory>
    requires flow { IsFlow W.BITS (routine_of c.now) f.now }
    ensures { IfOk result (λ l. (frame : Frame) → frame_in m.now ≡ Some frame → IsLiveness (target_of m.now frame []) (routine_of c.now) l) }
{
    let d = m.raw();
    let roles = roles_of(d);
    live_by(alloc, c, f, &roles)
}

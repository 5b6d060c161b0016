//! The general registers, and the register holes of rows.

ghost use Rattle.std.specs.Prelude.{◌≡◌, ◌↔◌, ◌<◌, ◌+◌, IsTrue};
ghost use Rattle.std.specs.Prelude.{count_by};
ghost use Rattle.md_text.specs.Rules.{is_general};
ghost use Rattle.md_check.specs.Accepted.{general_count, is_register_hole, most_registers};

use md_rows::{Hole, RawDescription, Register, Role, Row};

fn general_count(registers: &[Register]) -> usize
    ensures { result ≡ general_count registers.now }
{
    registers
        .iter()
        .filter(|register| is_general(register.role))
        .count()
}

fn is_general(role: Role) -> bool
    ensures { result ≡ is_general role }
{
    matches!(role, Role::General)
}

fn is_register_hole(hole: Hole) -> bool
    ensures { result ≡ is_register_hole hole }
{
    matches!(hole, Hole::Reg(_))
}

fn register_holes(holes: &[Hole]) -> usize
    ensures { result ≡ count_by is_register_hole holes.now }
{
    holes.iter().filter(|hole| is_register_hole(**hole)).count()
}

fn most_registers(rows: &[Row]) -> usize
    ensures { result ≡ most_registers rows.now }
{
    let mut most = 0;
    for i in 0..rows.len() {
        let row = &rows[i];
        let count = register_holes(row.holes.as_slice());
        if count > most {
            most = count;
        }
    }
    most
}

/// Whether there are fewer general registers than a row's register holes and one more.
pub(crate) fn has_few_registers(d: &RawDescription) -> bool
    ensures { IsTrue result ↔ (general_count d.now.registers < most_registers d.now.rows + 1) }
{
    general_count(d.registers.as_slice()) <= most_registers(d.rows.as_slice())
}

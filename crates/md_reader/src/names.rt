//! The registers and flags of a machine.

ghost use Rattle.std.specs.Prelude.{◌≡◌, ◌++◌, ◌∷◌, [], IfOk};
ghost use Rattle.md_text.specs.Declarations.{registers_in, flags_in};
ghost use Rattle.md_forms.specs.Seen.{form_of, declaration_of, declarations_of};
ghost use Rattle.md_reader.specs.Ranges.{IsInRange, AreInRange};

use crate::numbers::small;
use md_forms::{Declaration, Form};
use md_rows::{FlagName, Register};
use rtl_tree::NoMemory;
use sqlite_items::Items;
use std::alloc::Global;

fn with_register(
    alloc: Global,
    mut registers: Items<Register>,
    declaration: &Declaration,
) -> Result<Items<Register>, NoMemory>
    requires { IsInRange (form_of declaration.now.form) }
    ensures { IfOk result (λ more. more ≡ registers ++ registers_in (declaration_of declaration.now ∷ [])) }
{
    if let Form::RegisterLine { number, name, role } = &declaration.form {
        registers.push(Register {
            number: small(*number),
            name: Items::from_slice(alloc, name.as_slice())?,
            role: *role,
        })?;
    }
    Ok(registers)
}

pub fn registers(alloc: Global, all: &[Declaration]) -> Result<Items<Register>, NoMemory>
    requires { AreInRange (declarations_of all.now) }
    ensures { IfOk result (λ registers. registers ≡ registers_in (declarations_of all.now)) }
{
    let mut registers = Items::new(alloc);
    for declaration in all {
        registers = with_register(alloc, registers, declaration)?;
    }
    Ok(registers)
}

fn with_flag(
    alloc: Global,
    mut flags: Items<FlagName>,
    declaration: &Declaration,
) -> Result<Items<FlagName>, NoMemory>
    requires { IsInRange (form_of declaration.now.form) }
    ensures { IfOk result (λ more. more ≡ flags ++ flags_in (declaration_of declaration.now ∷ [])) }
{
    if let Form::FlagLine { number, name } = &declaration.form {
        flags.push(FlagName {
            number: small(*number),
            name: Items::from_slice(alloc, name.as_slice())?,
        })?;
    }
    Ok(flags)
}

pub fn flags(alloc: Global, all: &[Declaration]) -> Result<Items<FlagName>, NoMemory>
    requires { AreInRange (declarations_of all.now) }
    ensures { IfOk result (λ flags. flags ≡ flags_in (declarations_of all.now)) }
{
    let mut flags = Items::new(alloc);
    for declaration in all {
        flags = with_flag(alloc, flags, declaration)?;
    }
    Ok(flags)
}

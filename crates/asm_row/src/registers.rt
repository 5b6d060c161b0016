//! The names of registers.

ghost use Rattle.std.specs.Prelude.{◌≡◌, IfNone, IfSome, None, Some};
ghost use Rattle.md_rows.specs.Instances.{register_name};

use md_rows::Register;

/// The name of the first register of a number.
pub fn register_name(registers: &[Register], number: u8) -> Option<&[u8]>
    ensures found { IfSome result (λ name. register_name registers.now number ≡ Some name.now) }
    ensures none { IfNone result (register_name registers.now number ≡ None) }
{
    for register in registers {
        if register.number == number {
            return Some(register.name.as_slice());
        }
    }
    None
}

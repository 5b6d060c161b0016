//! The numbers of the heading, and the machine's name.

ghost use Rattle.std.specs.Prelude.{◌≡◌, ◌<◌, ◌^◌, IfOk};
ghost use Rattle.md_text.specs.Declarations.{number_of, machine_name_in, memory_in, data_in, stack_in};
ghost use Rattle.md_forms.specs.Seen.{declarations_of};
ghost use Rattle.md_reader.specs.Ranges.{AreInRange};

use md_forms::{Declaration, Form};
use rtl_tree::NoMemory;
use sqlite_items::Items;
use std::alloc::Global;

fn size(number: i64) -> u32
    requires { number_of number < 2 ^ 32 }
    ensures { result ≡ number_of number }
{
    number.unsigned_abs() as u32
}

/// The number of a register or flag.
pub fn small(number: i64) -> u8
    requires { number_of number < 64 }
    ensures { result ≡ number_of number }
{
    number.unsigned_abs() as u8
}

pub fn machine_name(alloc: Global, all: &[Declaration]) -> Result<Items<u8>, NoMemory>
    ensures { IfOk result (λ name. name ≡ machine_name_in (declarations_of all.now)) }
{
    for declaration in all {
        if let Form::MachineName(name) = &declaration.form {
            return Ok(Items::from_slice(alloc, name.as_slice())?);
        }
    }
    Ok(Items::new(alloc))
}

/// The bytes of memory.
pub fn memory(all: &[Declaration]) -> u32
    requires { AreInRange (declarations_of all.now) }
    ensures { result ≡ memory_in (declarations_of all.now) }
{
    for declaration in all {
        if let Form::MemorySize(number) = &declaration.form {
            return size(*number);
        }
    }
    0
}

/// The address at which data begins.
pub fn data(all: &[Declaration]) -> u32
    requires { AreInRange (declarations_of all.now) }
    ensures { result ≡ data_in (declarations_of all.now) }
{
    for declaration in all {
        if let Form::DataBegin(number) = &declaration.form {
            return size(*number);
        }
    }
    0
}

/// The bytes that the stack may take.
pub fn stack(all: &[Declaration]) -> u32
    requires { AreInRange (declarations_of all.now) }
    ensures { result ≡ stack_in (declarations_of all.now) }
{
    for declaration in all {
        if let Form::StackSize(number) = &declaration.form {
            return size(*number);
        }
    }
    0
}

//! The registers of a description.

ghost use Rattle.std.specs.Prelude.{◌≡◌, bit_or, option_map};
ghost use Rattle.md_covers.specs.Covers.{first_with as first_by, frame_in as frame_of, general_bit as bit_of, general_bits as bits_of, same_role};
ghost use Rattle.md_shapes.specs.Drawings.{frame_of as frame_by};

use md_rows::{RawDescription, Register, Role};
use md_shapes::Frame;

fn is_same_role(a: Role, b: Role) -> bool
    ensures { result ≡ same_role a b }
{
    a == b
}

fn first_with(role: Role, registers: &[Register]) -> Option<u8>
    ensures { result ≡ first_by role registers.now }
{
    for i in 0..registers.len() {
        let register = &registers[i];
        if is_same_role(register.role, role) {
            return Some(register.number);
        }
    }
    None
}

fn general_bit(role: Role, number: u8) -> u64
    ensures { result ≡ bit_of role number }
{
    if is_same_role(role, Role::General) && number < 64 {
        1 << number
    } else {
        0
    }
}

/// A bit for each general register, whose number is below 64.
pub fn general_bits(registers: &[Register]) -> u64
    ensures { result ≡ bits_of registers.now }
{
    let mut bits = 0;
    for i in 0..registers.len() {
        let register = &registers[i];
        bits |= general_bit(register.role, register.number);
    }
    bits
}

/// What a description fixes of the shapes, if it has a stack register and a result register.
pub(crate) fn frame_in(d: &RawDescription) -> Option<Frame>
    ensures { option_map (frame_by d.now.word) result ≡ frame_of d.now }
{
    let registers = d.registers.as_slice();
    let stack = first_with(Role::Stack, registers);
    let result = first_with(Role::Result, registers);
    let link = first_with(Role::Link, registers);
    match (stack, result) {
        (Some(stack), Some(result)) => Some(Frame {
            stack,
            result,
            link,
            memory: d.memory,
        }),
        _ => None,
    }
}

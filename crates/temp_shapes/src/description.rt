//! The registers of a description that shapes name.

ghost use Rattle.std.specs.Prelude.{◌≡◌, Some, option_map};
ghost use Rattle.md_shapes.specs.Drawings.{frame_of as frame_by};
ghost use Rattle.md_covers.specs.Covers.{first_with as first_by, frame_in as frame_seen, same_role};
ghost use Rattle.temp_shapes.specs.Rows.{HasRoles};

use md_rows::{RawDescription, Register, Role};
use md_shapes::Frame;

fn is_same_role(a: Role, b: Role) -> bool
    ensures { result ≡ same_role a b }
{
    a == b
}

fn first_with(role: Role, registers: &[Register]) -> Option<u8>
    ensures { result ≡ first_by role registers.now }
{
    for i in 0..registers.len() {
        let register = &registers[i];
        if is_same_role(register.role, role) {
            return Some(register.number);
        }
    }
    None
}

fn frame_in(d: &RawDescription) -> Option<Frame>
    ensures { option_map (frame_by d.now.word) result ≡ frame_seen d.now }
{
    let registers = d.registers.as_slice();
    let stack = first_with(Role::Stack, registers);
    let result = first_with(Role::Result, registers);
    let link = first_with(Role::Link, registers);
    match (stack, result) {
        (Some(stack), Some(result)) => Some(Frame {
            stack,
            result,
            link,
            memory: d.memory,
        }),
        _ => None,
    }
}

/// What a description with a stack register and a result register fixes of the shapes.
pub(crate) fn frame_of(d: &RawDescription) -> Frame
    requires { HasRoles d.now }
    ensures { frame_seen d.now ≡ Some (frame_by d.now.word result) }
{
    match frame_in(d) {
        Some(frame) => frame,
        None => unreachable!(),
    }
}

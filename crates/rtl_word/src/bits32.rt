//! Words of 32 bits.

use crate::{Rel, Word};

/// Words of 32 bits.
#[derive(Clone, Copy, Debug)]
pub struct W32;

impl Word for W32 {
    ghost use Rattle.std.proofs.Common.{inr, refl};

    ghost BITS = { 32 };

    const BITS: u32 = 32;

    ghost sizes = { inr refl };

    fn add(a: u32, b: u32) -> u32 {
        a.wrapping_add(b)
    }

    fn sub(a: u32, b: u32) -> u32 {
        a.wrapping_sub(b)
    }

    fn mul(a: u32, b: u32) -> u32 {
        a.wrapping_mul(b)
    }

    fn and(a: u32, b: u32) -> u32 {
        a & b
    }

    fn or(a: u32, b: u32) -> u32 {
        a | b
    }

    fn xor(a: u32, b: u32) -> u32 {
        a ^ b
    }

    fn neg(a: u32) -> u32 {
        a.wrapping_neg()
    }

    fn not(a: u32) -> u32 {
        0xffff_ffff - a
    }

    fn sxb(a: u32) -> u32 {
        let low = a % 256;
        if low < 128 { low } else { low + 0xffff_ff00 }
    }

    fn rel(r: Rel, a: u32, b: u32) -> u32 {
        let holds = match r {
            Rel::Eq => a == b,
            Rel::Ne => a != b,
            Rel::Lt => a.cast_signed() < b.cast_signed(),
            Rel::Le => a.cast_signed() <= b.cast_signed(),
            Rel::Gt => a.cast_signed() > b.cast_signed(),
            Rel::Ge => a.cast_signed() >= b.cast_signed(),
            Rel::Ltu => a < b,
            Rel::Leu => a <= b,
            Rel::Gtu => a > b,
            Rel::Geu => a >= b,
        };
        u32::from(holds)
    }

    fn div(a: u32, b: u32) -> Option<u32> {
        if b == 0 || (a == 0x8000_0000 && b == 0xffff_ffff) {
            return None;
        }
        let quotient = a.cast_signed() / b.cast_signed();
        Some(quotient.cast_unsigned())
    }

    fn divu(a: u32, b: u32) -> Option<u32> {
        if b == 0 { None } else { Some(a / b) }
    }

    fn rem(a: u32, b: u32) -> Option<u32> {
        if b == 0 || (a == 0x8000_0000 && b == 0xffff_ffff) {
            return None;
        }
        let remainder = a.cast_signed() % b.cast_signed();
        Some(remainder.cast_unsigned())
    }

    fn remu(a: u32, b: u32) -> Option<u32> {
        if b == 0 { None } else { Some(a % b) }
    }

    fn shl(a: u32, b: u32) -> Option<u32> {
        if b < 32 { Some(a << b) } else { None }
    }

    fn shr(a: u32, b: u32) -> Option<u32> {
        if b < 32 {
            let shifted = a.cast_signed() >> b;
            Some(shifted.cast_unsigned())
        } else {
            None
        }
    }

    fn shru(a: u32, b: u32) -> Option<u32> {
        if b < 32 { Some(a >> b) } else { None }
    }
}

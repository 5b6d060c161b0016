//! Words of 16 bits.

use crate::{Rel, Word};

/// Words of 16 bits.
#[derive(Clone, Copy, Debug)]
pub struct W16;

impl Word for W16 {
    ghost use Rattle.std.proofs.Common.{inl, refl};

    ghost BITS = { 16 };

    const BITS: u32 = 16;

    ghost sizes = { inl refl };

    fn add(a: u32, b: u32) -> u32 {
        a.wrapping_add(b) & 0xffff
    }

    fn sub(a: u32, b: u32) -> u32 {
        a.wrapping_sub(b) & 0xffff
    }

    fn mul(a: u32, b: u32) -> u32 {
        a.wrapping_mul(b) & 0xffff
    }

    fn and(a: u32, b: u32) -> u32 {
        a & b
    }

    fn or(a: u32, b: u32) -> u32 {
        a | b
    }

    fn xor(a: u32, b: u32) -> u32 {
        a ^ b
    }

    fn neg(a: u32) -> u32 {
        a.wrapping_neg() & 0xffff
    }

    fn not(a: u32) -> u32 {
        0xffff - a
    }

    fn sxb(a: u32) -> u32 {
        let low = a % 256;
        if low < 128 { low } else { low + 0xff00 }
    }

    fn rel(r: Rel, a: u32, b: u32) -> u32 {
        let holds = match r {
            Rel::Eq => a == b,
            Rel::Ne => a != b,
            Rel::Lt => (a as u16).cast_signed() < (b as u16).cast_signed(),
            Rel::Le => (a as u16).cast_signed() <= (b as u16).cast_signed(),
            Rel::Gt => (a as u16).cast_signed() > (b as u16).cast_signed(),
            Rel::Ge => (a as u16).cast_signed() >= (b as u16).cast_signed(),
            Rel::Ltu => a < b,
            Rel::Leu => a <= b,
            Rel::Gtu => a > b,
            Rel::Geu => a >= b,
        };
        u32::from(holds)
    }

    fn div(a: u32, b: u32) -> Option<u32> {
        if b == 0 || (a == 0x8000 && b == 0xffff) {
            return None;
        }
        let quotient = (a as u16).cast_signed() / (b as u16).cast_signed();
        Some(u32::from(quotient.cast_unsigned()))
    }

    fn divu(a: u32, b: u32) -> Option<u32> {
        if b == 0 { None } else { Some(a / b) }
    }

    fn rem(a: u32, b: u32) -> Option<u32> {
        if b == 0 || (a == 0x8000 && b == 0xffff) {
            return None;
        }
        let remainder = (a as u16).cast_signed() % (b as u16).cast_signed();
        Some(u32::from(remainder.cast_unsigned()))
    }

    fn remu(a: u32, b: u32) -> Option<u32> {
        if b == 0 { None } else { Some(a % b) }
    }

    fn shl(a: u32, b: u32) -> Option<u32> {
        if b < 16 {
            Some((a << b) & 0xffff)
        } else {
            None
        }
    }

    fn shr(a: u32, b: u32) -> Option<u32> {
        if b < 16 {
            let shifted = (a as u16).cast_signed() >> b;
            Some(u32::from(shifted.cast_unsigned()))
        } else {
            None
        }
    }

    fn shru(a: u32, b: u32) -> Option<u32> {
        if b < 16 { Some(a >> b) } else { None }
    }
}

//! Words worked out by hand in two's complement.

use rtl_word::{Rel, W16, W32, Word};

#[test]
fn sums(rt: HostRuntime) {
    let table = [
        (W16::add(0xffff, 2), 1),
        (W16::sub(1, 2), 0xffff),
        (W16::mul(0x0100, 0x0101), 0x0100),
        (W16::neg(1), 0xffff),
        (W16::not(0x00ff), 0xff00),
        (W16::sxb(0x1280), 0xff80),
        (W16::and(0xff0f, 0x0ff0), 0x0f00),
        (W16::or(0xf000, 0x000f), 0xf00f),
        (W16::xor(0xffff, 0x0ff0), 0xf00f),
        (W32::add(0xffff_ffff, 2), 1),
        (W32::sub(1, 2), 0xffff_ffff),
        (W32::mul(0x0001_0000, 0x0001_0001), 0x0001_0000),
        (W32::neg(1), 0xffff_ffff),
        (W32::not(0x00ff), 0xffff_ff00),
        (W32::sxb(0x1280), 0xffff_ff80),
        (W32::and(0xff0f_0000, 0x0ff0_ffff), 0x0f00_0000),
        (W32::or(0xf000_0000, 0x000f), 0xf000_000f),
        (W32::xor(0xffff_ffff, 0x0ff0), 0xffff_f00f),
    ];
    for (got, wanted) in table {
        assert_eq!(rt; got, wanted);
    }
}

/// -7 by 2 is -3 with -1 left; read without a sign, 65529 by 2 is 32764 with 1 left.
#[test]
fn quotients(rt: HostRuntime) {
    let table = [
        (W16::div(0xfff9, 2), Some(0xfffd)),
        (W16::rem(0xfff9, 2), Some(0xffff)),
        (W16::divu(0xfff9, 2), Some(32764)),
        (W16::remu(0xfff9, 2), Some(1)),
        (W16::div(5, 0), None),
        (W16::rem(0x8000, 0xffff), None),
        (W16::shl(0x4001, 2), Some(4)),
        (W16::shr(0x8000, 15), Some(0xffff)),
        (W16::shru(0x8000, 15), Some(1)),
        (W16::shl(1, 16), None),
        (W32::div(0xffff_fff9, 2), Some(0xffff_fffd)),
        (W32::rem(0xffff_fff9, 2), Some(0xffff_ffff)),
        (W32::divu(0xffff_fff9, 2), Some(2_147_483_644)),
        (W32::remu(0xffff_fff9, 2), Some(1)),
        (W32::div(0x8000_0000, 0xffff_ffff), None),
        (W32::rem(5, 0), None),
        (W32::shl(0x4000_0001, 2), Some(4)),
        (W32::shr(0x8000_0000, 31), Some(0xffff_ffff)),
        (W32::shru(0x8000_0000, 31), Some(1)),
        (W32::shr(1, 32), None),
    ];
    for (got, wanted) in table {
        assert_eq!(rt; got, wanted);
    }
}

/// The first word is below zero when it is read with a sign, and the greater one when it is not.
#[test]
fn relations(rt: HostRuntime) {
    let table = [
        (W16::rel(Rel::Lt, 0xffff, 1), 1),
        (W16::rel(Rel::Ltu, 0xffff, 1), 0),
        (W16::rel(Rel::Geu, 0xffff, 1), 1),
        (W32::rel(Rel::Lt, 0xffff, 1), 0),
        (W32::rel(Rel::Le, 0xffff_ffff, 1), 1),
        (W32::rel(Rel::Gtu, 0xffff_ffff, 1), 1),
        (W32::rel(Rel::Ne, 3, 3), 0),
    ];
    for (got, wanted) in table {
        assert_eq!(rt; got, wanted);
    }
    assert_eq!(rt; Rel::Le.mirrored(), Rel::Ge);
    assert_eq!(rt; Rel::Le.negated(), Rel::Gt);
}

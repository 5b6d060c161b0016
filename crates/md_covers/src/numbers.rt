//! The numbers of the shapes, and whether a row takes them all.

ghost use Rattle.std.specs.Prelude.{◌≡◌, ◌↔◌, ◌<◌, ◌-◌, ◌/◌, ◌^◌, ℕ, IsTrue, All, true};
ghost use Rattle.rtl_word.specs.Words.{IsWordSize};
ghost use Rattle.md_covers.specs.Numbers.{end_of, first_number as first_of, has_runs, multiples, negatives, runs_of, takes_between, takes_runs, words};

use crate::ranges::has_run;
use md_rows::Hole;
use md_shapes::Pattern;

fn greatest_word(bits: u32) -> u32
    requires size { IsWordSize bits }
    ensures value { result ≡ 2 ^ bits - 1 }
    ensures last { result ≡ end_of (words bits) }
{
    if bits == 16 { 0xffff } else { 0xffff_ffff }
}

// The greatest offset of a word in a frame.
fn last_offset(bits: u32) -> u32
    requires size { IsWordSize bits }
    ensures value { result ≡ end_of (multiples bits 32255) }
    ensures word { result < 2 ^ bits }
{
    if bits == 16 { 32_254 } else { 32_252 }
}

// The word of the least number by which the stack register moves, and that of the greatest below zero.
fn least_step(bits: u32) -> u32
    requires size { IsWordSize bits }
    ensures value { result ≡ 2 ^ bits - 32000 }
    ensures word { result < 2 ^ bits }
{
    if bits == 16 {
        0x1_0000 - 32_000
    } else {
        0xffff_ffff - 31_999
    }
}

fn last_step(bits: u32) -> u32
    requires size { IsWordSize bits }
    ensures value { result ≡ end_of (negatives bits 32000) }
    ensures word { result < 2 ^ bits }
{
    if bits == 16 { 0xfffe } else { 0xffff_fffc }
}

fn last_rise(bits: u32) -> u32
    requires size { IsWordSize bits }
    ensures value { result ≡ end_of (multiples bits 32000) }
    ensures word { result < 2 ^ bits }
{
    let _ = bits;
    32_000
}

// Whether a hole, where it is one for numbers, has each of the words a, a + step, .., z.
fn takes(bits: u32, hole: Hole, a: u32, z: u32, step: u32) -> bool
    requires size { IsWordSize bits }
    requires first { a < 2 ^ bits }
    requires last { z < 2 ^ bits }
    requires step { 0 < step }
    requires step_size { step < 256 }
    ensures { result ≡ takes_between bits hole a z step }
{
    match hole {
        Hole::Num {
            low,
            high,
            inverted,
        } => {
            let most = greatest_word(bits);
            if inverted {
                has_run(bits, low, high, most - z, most - a, step)
            } else {
                has_run(bits, low, high, a, z, step)
            }
        }
        _ => true,
    }
}

// Whether it has all numbers of a shape.
fn takes_all(bits: u32, pattern: Pattern, hole: Hole) -> bool
    requires size { IsWordSize bits }
    ensures { result ≡ takes_runs bits hole (runs_of bits pattern) }
{
    let bytes = bits / 8;
    match pattern {
        Pattern::SetNumber => takes(bits, hole, 0, greatest_word(bits), 1),
        Pattern::LoadHome | Pattern::StoreHome | Pattern::SaveLink | Pattern::RestoreLink => {
            takes(bits, hole, bytes, last_offset(bits), bytes)
        }
        Pattern::MoveStack => {
            takes(bits, hole, bytes, last_rise(bits), bytes)
                && takes(bits, hole, least_step(bits), last_step(bits), bytes)
        }
        _ => true,
    }
}

/// Whether each number hole of a row has all numbers of a shape.
pub(crate) fn are_taken(bits: u32, pattern: Pattern, holes: &[Hole]) -> bool
    requires size { IsWordSize bits }
    ensures { IsTrue result ↔ All (λ hole. takes_runs bits hole (runs_of bits pattern) ≡ true) holes.now }
{
    holes.iter().all(|hole| takes_all(bits, pattern, *hole))
}

/// The first number of a shape, and 0 where it has none.
pub(crate) fn first_number(bits: u32, pattern: Pattern) -> u32
    requires size { IsWordSize bits }
    ensures { result ≡ first_of (runs_of bits pattern) }
{
    match pattern {
        Pattern::LoadHome | Pattern::StoreHome | Pattern::SaveLink | Pattern::RestoreLink => bits
            / 8,
        Pattern::MoveStack => bits / 8,
        _ => 0,
    }
}

/// Whether a shape has numbers.
pub(crate) fn has_numbers(pattern: Pattern) -> bool
    ensures { (w : ℕ) → result ≡ has_runs (runs_of w pattern) }
{
    match pattern {
        Pattern::SetNumber | Pattern::MoveStack => true,
        Pattern::LoadHome | Pattern::StoreHome | Pattern::SaveLink | Pattern::RestoreLink => true,
        _ => false,
    }
}

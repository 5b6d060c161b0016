//! Values of flat operands.

ghost use Rattle.std.specs.Prelude.{Ok, Some, slice_get, slice_index, ◌<◌, ◌^◌, ◌≡◌};
ghost use Rattle.rtl_value.specs.Values.{IsPairOfWords, IsWord, flag_test, unary_of, value_of};
ghost use Rattle.machine_turn.specs.Held.{IsHeld, IsPlain, state_of};
ghost use Rattle.machine_forms.specs.Forms.{address_tree, source_tree, value_tree};

use crate::forms::{Address, Source, Value};
use crate::memory::load;
use machine_turn::Held;
use rtl_tree::{BinOp, UnOp};
use rtl_value::{FlagPair, Trap, apply_binary};
use rtl_word::{Rel, Word};

#[inline(always)]
fn register<W: Word>(n: u8, s: &Held) -> u32
    requires held { IsHeld W.BITS s.now }
    requires register { n < 64 }
    ensures value { result ≡ slice_index s.now.registers n }
    ensures fits { result < 2 ^ W.BITS }
{
    s.registers[usize::from(n)]
}

/// The number that an address is.
#[inline(always)]
pub fn address<W: Word>(a: Address, s: &Held) -> u32
    requires held { IsHeld W.BITS s.now }
    requires plain { IsPlain W.BITS (address_tree a) }
    ensures value { value_of W.BITS (address_tree a) (state_of s.now) ≡ Ok result }
    ensures fits { result < 2 ^ W.BITS }
{
    match a {
        Address::In(n) => register::<W>(n, s),
        Address::Beyond(n, k) => W::add(register::<W>(n, s), k),
        Address::Fixed(k) => k,
    }
}

/// What a source reads, or the first trap.
#[inline(always)]
pub fn source<W: Word>(a: Source, s: &Held) -> Result<u32, Trap>
    requires held { IsHeld W.BITS s.now }
    requires plain { IsPlain W.BITS (source_tree a) }
    ensures value { result ≡ value_of W.BITS (source_tree a) (state_of s.now) }
    ensures fits { IsWord W.BITS result }
{
    match a {
        Source::Register(n) => Ok(register::<W>(n, s)),
        Source::Number(k) => Ok(k),
        Source::Memory(width, a) => load::<W>(&s.memory, width, address::<W>(a, s)),
    }
}

#[inline(always)]
fn apply_unary<W: Word>(operator: UnOp, x: u32) -> u32
    requires { x < 2 ^ W.BITS }
    ensures value { result ≡ unary_of W.BITS operator x }
    ensures fits { result < 2 ^ W.BITS }
{
    match operator {
        UnOp::Neg => W::neg(x),
        UnOp::Not => W::not(x),
        UnOp::Sxb => W::sxb(x),
        UnOp::Test(_) => 0,
    }
}

#[inline(always)]
fn unary<W: Word>(operator: UnOp, a: Source, s: &Held) -> Result<u32, Trap>
    requires held { IsHeld W.BITS s.now }
    requires plain { IsPlain W.BITS (source_tree a) }
    ensures value { result ≡ value_of W.BITS (value_tree (Value.Unary operator a)) (state_of s.now) }
    ensures fits { IsWord W.BITS result }
{
    match operator {
        UnOp::Test(_) => Err(Trap::LostFlag),
        _ => {
            let x = source::<W>(a, s)?;
            Ok(apply_unary::<W>(operator, x))
        }
    }
}

#[inline(always)]
fn binary<W: Word>(operator: BinOp, a: Source, b: Source, s: &Held) -> Result<u32, Trap>
    requires held { IsHeld W.BITS s.now }
    requires a_plain { IsPlain W.BITS (source_tree a) }
    requires b_plain { IsPlain W.BITS (source_tree b) }
    ensures value { result ≡ value_of W.BITS (value_tree (Value.Binary operator a b)) (state_of s.now) }
    ensures fits { IsWord W.BITS result }
{
    let x = source::<W>(a, s)?;
    let y = source::<W>(b, s)?;
    apply_binary::<W>(operator, x, y)
}

/// What is computed, or the first trap.
#[inline(always)]
pub fn value<W: Word>(v: Value, s: &Held) -> Result<u32, Trap>
    requires held { IsHeld W.BITS s.now }
    requires plain { IsPlain W.BITS (value_tree v) }
    ensures value { result ≡ value_of W.BITS (value_tree v) (state_of s.now) }
    ensures fits { IsWord W.BITS result }
{
    match v {
        Value::Plain(a) => source::<W>(a, s),
        Value::Unary(operator, a) => unary::<W>(operator, a, s),
        Value::Binary(operator, a, b) => binary::<W>(operator, a, b, s),
    }
}

#[inline(always)]
fn test_pair<W: Word>(r: Rel, pair: Option<FlagPair>) -> Result<u32, Trap>
    requires pair { IsPairOfWords W.BITS pair }
    ensures value { result ≡ flag_test W.BITS r (Some pair) }
    ensures fits { IsWord W.BITS result }
{
    match pair {
        None => Err(Trap::LostFlag),
        Some(pair) => Ok(W::rel(r, pair.left, pair.right)),
    }
}

/// The test of what a flag holds.
#[inline(always)]
pub fn test_flag<W: Word>(r: Rel, flag: u8, s: &Held) -> Result<u32, Trap>
    requires held { IsHeld W.BITS s.now }
    ensures value { result ≡ flag_test W.BITS r (slice_get s.now.flags flag) }
    ensures fits { IsWord W.BITS result }
{
    if 8 <= flag {
        return Err(Trap::LostFlag);
    }
    test_pair::<W>(r, s.flags[usize::from(flag)])
}

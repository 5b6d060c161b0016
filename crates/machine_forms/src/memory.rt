//! Loads and stores.

ghost use Rattle.std.specs.Prelude.{Err, IfOk, Ok, length, ◌*◌, ◌+◌, ◌/◌, ◌<◌, ◌^◌, ◌≡◌, ◌≤◌, ◌⊎◌};
ghost use Rattle.rtl_value.specs.Values.{IsWord, bytes_at, load_of};
ghost use Rattle.rtl_effect.specs.Views.{width_of};
ghost use Rattle.machine_turn.specs.Turn.{place_checked, stored};

use rtl_tree::Width;
use rtl_value::Trap;
use rtl_word::Word;

#[inline(always)]
fn word_at<W: Word>(memory: &[u8], at: usize) -> u32
    requires { at + W.BITS / 8 ≤ length memory.now }
    ensures value { result ≡ bytes_at memory.now at (W.BITS / 8) }
    ensures fits { result < 2 ^ W.BITS }
{
    let low = u32::from(memory[at]) + 256 * u32::from(memory[at + 1]);
    if W::BITS == 16 {
        return low;
    }
    low + 65536 * (u32::from(memory[at + 2]) + 256 * u32::from(memory[at + 3]))
}

/// What memory holds at an address.
#[inline(always)]
pub fn load<W: Word>(memory: &[u8], width: Width, at: u32) -> Result<u32, Trap>
    ensures value { result ≡ load_of W.BITS width memory.now at }
    ensures fits { IsWord W.BITS result }
{
    let at = at as usize;
    match width {
        Width::Byte => {
            if at < memory.len() {
                Ok(u32::from(memory[at]))
            } else {
                Err(Trap::Address)
            }
        }
        Width::Full => {
            let size = (W::BITS / 8) as usize;
            if memory.len() < at + size {
                return Err(Trap::Address);
            }
            if at % size != 0 {
                return Err(Trap::Align);
            }
            Ok(word_at::<W>(memory, at))
        }
    }
}

/// The bytes that a load or a store touches.
#[inline(always)]
fn byte_count<W: Word>(width: Width) -> u32
    ensures value { result ≡ width_of W.BITS width }
    ensures few { result ≡ 1 ⊎ result ≡ 2 ⊎ result ≡ 4 }
{
    match width {
        Width::Byte => 1,
        Width::Full => W::BITS / 8,
    }
}

/// The address of a store of so many bytes, where it lies in a memory of this size.
#[inline(always)]
fn checked(count: u32, size: usize, at: u32) -> Result<u32, Trap>
    requires few { count ≡ 1 ⊎ count ≡ 2 ⊎ count ≡ 4 }
    ensures { result ≡ place_checked count size at }
{
    if size < at as usize + count as usize {
        return Err(Trap::Address);
    }
    if at % count != 0 {
        return Err(Trap::Align);
    }
    Ok(at)
}

/// The place of a store, where it lies in a memory of this size.
#[inline(always)]
pub fn place<W: Word>(width: Width, size: usize, at: u32) -> Result<u32, Trap>
    ensures place { result ≡ place_checked (width_of W.BITS width) size at }
    ensures within { IfOk result (λ at. at + width_of W.BITS width ≤ size) }
{
    checked(byte_count::<W>(width), size, at)
}

#[inline(always)]
fn put_word<W: Word>(memory: &mut [u8], at: usize, x: u32)
    requires { at + W.BITS / 8 ≤ length memory.old }
    ensures { memory.new ≡ stored memory.old at (W.BITS / 8) x }
{
    memory[at] = (x % 256) as u8;
    memory[at + 1] = (x / 256 % 256) as u8;
    if W::BITS == 16 {
        return;
    }
    memory[at + 2] = (x / 256 / 256 % 256) as u8;
    memory[at + 3] = (x / 256 / 256 / 256 % 256) as u8;
}

/// Stores the low bytes of a value at a place.
#[inline(always)]
pub fn store<W: Word>(memory: &mut [u8], width: Width, at: usize, x: u32)
    requires { at + width_of W.BITS width ≤ length memory.old }
    ensures { memory.new ≡ stored memory.old at (width_of W.BITS width) x }
{
    match width {
        Width::Byte => memory[at] = (x % 256) as u8,
        Width::Full => put_word::<W>(memory, at, x),
    }
}

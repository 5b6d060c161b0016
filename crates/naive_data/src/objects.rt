//! Objects of the file in a row.

ghost use Rattle.std.specs.Prelude.{◌≡◌, ◌+◌, ◌++◌, ◌/◌, ◌%◌, ◌^◌, ◌<◌, IfOk, OnOk};
ghost use Rattle.temp_machine.specs.Routines.{Image, Target};
ghost use Rattle.naive_data.specs.Layout.{addresses, data_of, object_data, size_of};
ghost use Rattle.naive_data.specs.Placed.{IsPlaced};

use crate::sizes::filling;
use crate::values::{push_elements, push_zeros};
use c_limits::object_bytes;
use c_tree::Static;
use rtl_tree::NoMemory;
use rtl_word::Word;
use sqlite_items::Items;
use std::alloc::Global;

/// The objects of the file in memory.
#[derive(Drop)]
pub struct Data {
    /// The address of each object, in their order.
    pub symbols: Items<u32>,
    /// From the address on at which the data begin.
    pub bytes: Items<u8>,
}

fn addresses_of<W: Word>(
    alloc: Global,
    base: u32,
    statics: &[Static],
) -> Result<Items<u32>, NoMemory>
    requires { base + size_of W.BITS statics.now < 2 ^ 32 }
    ensures { IfOk result (λ symbols. symbols ≡ addresses W.BITS base statics.now) }
{
    let mut symbols = Items::new(alloc);
    let mut address = base;
    for s in statics {
        symbols.push(address)?;
        address += object_bytes::<W>(&s.object) as u32;
    }
    Ok(symbols)
}

fn push_object<W: Word>(bytes: &mut Items<u8>, s: &Static) -> Result<(), NoMemory>
    ensures { OnOk result (bytes.new ≡ bytes.old ++ object_data W.BITS s.now) }
{
    push_elements::<W>(bytes, s)?;
    push_zeros(bytes, filling::<W>(&s.object))
}

fn bytes_of<W: Word>(alloc: Global, statics: &[Static]) -> Result<Items<u8>, NoMemory>
    ensures { IfOk result (λ bytes. bytes ≡ data_of W.BITS statics.now) }
{
    let mut bytes = Items::new(alloc);
    for s in statics {
        push_object::<W>(&mut bytes, s)?;
    }
    Ok(bytes)
}

/// The objects of the file, where data begin at a multiple of a word and memory has room for them.
pub fn place_statics<W: Word>(
    alloc: Global,
    base: u32,
    statics: &[Static],
) -> Result<Data, NoMemory>
    requires aligned { base % (W.BITS / 8) ≡ 0 }
    requires room { base + size_of W.BITS statics.now < 2 ^ W.BITS }
    ensures symbols { IfOk result (λ made. made.symbols ≡ addresses W.BITS base statics.now) }
    ensures bytes { IfOk result (λ made. made.bytes ≡ data_of W.BITS statics.now) }
    ensures placed { IfOk result (λ made. (t : Target) (u : Image) → t.word ≡ W.BITS → t.base ≡ base → u.symbols ≡ made.symbols → u.bytes ≡ made.bytes → IsPlaced t u statics.now) }
{
    let symbols = addresses_of::<W>(alloc, base, statics)?;
    let bytes = bytes_of::<W>(alloc, statics)?;
    Ok(Data { symbols, bytes })
}

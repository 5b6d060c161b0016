//! The values of an object of the file, and their bytes.

ghost use Rattle.std.specs.Prelude.{◌≡◌, ◌++◌, ◌%◌, ◌^◌, ◌≤◌, OnOk, replicate};
ghost use Rattle.std.specs.Int.{bytes_low_first};
ghost use Rattle.std.specs.List.{flat_map, range_with_len};
ghost use Rattle.c_meaning.specs.Operators.{as_type};
ghost use Rattle.naive_run.specs.Law.{element_count};
ghost use Rattle.naive_data.specs.Layout.{element_data, value_at};

use crate::sizes::{cell_bytes, element_count};
use c_tree::{CType, Static};
use rtl_tree::NoMemory;
use rtl_word::Word;
use sqlite_items::Items;

fn low_word<W: Word>(x: u32) -> u32
    ensures { result ≡ x % 2 ^ W.BITS }
{
    if W::BITS == 16 { x % 0x1_0000 } else { x }
}

/// A number as a value of a type (C11 6.3.1.3).
fn as_type<W: Word>(of: CType, x: u32) -> u32
    ensures { result ≡ as_type W.BITS of x }
{
    match of {
        CType::Schar => W::sxb(x % 256),
        CType::Uchar => x % 256,
        _ => low_word::<W>(x),
    }
}

fn value_at<W: Word>(s: &Static, i: u32) -> u32
    ensures { result ≡ value_at W.BITS s.now i }
{
    let listed = s.init.get(i as usize).copied().unwrap_or(0);
    as_type::<W>(s.object.element, listed)
}

fn push_low(bytes: &mut Items<u8>, count: usize, value: u32) -> Result<(), NoMemory>
    requires { count ≤ 4 }
    ensures { OnOk result (bytes.new ≡ bytes.old ++ bytes_low_first 0 count value) }
{
    let all = value.to_le_bytes();
    let low = &all[..count];
    for byte in low {
        bytes.push(*byte)?;
    }
    Ok(())
}

/// Puts the elements of an object behind bytes.
pub(crate) fn push_elements<W: Word>(bytes: &mut Items<u8>, s: &Static) -> Result<(), NoMemory>
    ensures { OnOk result (bytes.new ≡ bytes.old ++ flat_map (element_data W.BITS s.now) (range_with_len 0 (element_count s.now.object))) }
{
    let size = cell_bytes::<W>(&s.object) as usize;
    for i in 0..element_count(&s.object) {
        push_low(bytes, size, value_at::<W>(s, i))?;
    }
    Ok(())
}

pub(crate) fn push_zeros(bytes: &mut Items<u8>, count: u64) -> Result<(), NoMemory>
    ensures { OnOk result (bytes.new ≡ bytes.old ++ replicate count 0) }
{
    for _ in 0..count {
        bytes.push(0)?;
    }
    Ok(())
}

//! How many bytes objects and frames take.

ghost use Rattle.std.specs.Prelude.{◌≡◌, ◌+◌, ◌*◌, ◌<◌, ◌≤◌, ◌⊎◌, ◌^◌, []};
ghost use Rattle.c_limits.specs.Sums.{capped};
ghost use Rattle.c_limits.specs.Frames.{array_bytes, array_in, arrays, bytes_by, element_bytes, frame_bytes, object_bytes, scalar_in, scalars, word_bytes};

use crate::depth::needs_of;
use c_tree::{CType, Function, Object};
use rtl_word::Word;

fn word_bytes<W: Word>() -> u64
    ensures bytes { result ≡ word_bytes W.BITS }
    ensures size { (result ≡ 2) ⊎ (result ≡ 4) }
{
    if W::BITS == 16 { 2 } else { 4 }
}

/// The bytes of an array's element.
pub fn element_bytes<W: Word>(of: CType) -> u64
    ensures bytes { result ≡ element_bytes W.BITS of }
    ensures small { result ≤ 4 }
{
    match of {
        CType::Schar => 1,
        CType::Uchar => 1,
        _ => word_bytes::<W>(),
    }
}

fn array_bytes<W: Word>(of: CType, length: u32) -> u64
    ensures bytes { result ≡ array_bytes W.BITS of length }
    ensures fits { result < 2 ^ 40 }
{
    let word = word_bytes::<W>();
    let bytes = u64::from(length) * element_bytes::<W>(of);
    (bytes + (word - 1)) / word * word
}

/// The bytes that an object takes, a multiple of the word's.
pub fn object_bytes<W: Word>(o: &Object) -> u64
    ensures bytes { result ≡ object_bytes W.BITS o.now }
    ensures fits { result < 2 ^ 40 }
{
    match o.length {
        None => word_bytes::<W>(),
        Some(length) => array_bytes::<W>(o.element, length),
    }
}

fn scalars(objects: &[Object]) -> usize
    ensures { result ≡ scalars objects.now }
{
    let mut count: usize = 0;
    for o in objects {
        if o.length.is_none() {
            count += 1;
        }
    }
    count
}

fn array_in<W: Word>(o: &Object) -> u64
    ensures { result ≡ array_in W.BITS o.now.element o.now.length }
{
    match o.length {
        None => 0,
        Some(length) => array_bytes::<W>(o.element, length),
    }
}

fn arrays<W: Word>(objects: &[Object]) -> u64
    ensures { result ≡ capped (arrays W.BITS objects.now) }
{
    let mut sum: u64 = 0;
    for o in objects {
        sum = sum.saturating_add(array_in::<W>(o));
    }
    sum
}

/// The bytes of a function's frame where no register is kept over calls: the outgoing arguments, the link, 16 homes in reserve, a
/// home for each parameter, local scalar and depth of evaluation, and the arrays. Of frames from
/// `2^64 - 1` bytes on it gives that number.
pub fn frame_of<W: Word>(f: &Function) -> u64
    ensures { result ≡ capped (frame_bytes [] W.BITS f.now) }
{
    let needs = needs_of(f);
    let homes = (f.params.len() as u64).saturating_add(scalars(f.locals.as_slice()) as u64);
    let words = (needs.arguments as u64)
        .max(2)
        .saturating_add(homes)
        .saturating_add(21);
    let scalar_bytes = words
        .saturating_add(needs.depth)
        .saturating_mul(word_bytes::<W>());
    scalar_bytes.saturating_add(arrays::<W>(f.locals.as_slice()))
}

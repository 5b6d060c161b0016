//! How many bytes the elements of an object take, and how many fill its last word.

ghost use Rattle.std.specs.Prelude.{◌≡◌, ◌/◌, ◌≤◌};
ghost use Rattle.naive_run.specs.Law.{cell_bytes, element_count};
ghost use Rattle.naive_data.specs.Layout.{filling};

use c_limits::{element_bytes, object_bytes};
use c_tree::Object;
use rtl_word::Word;

fn word_bytes<W: Word>() -> u64
    ensures eighth { result ≡ W.BITS / 8 }
    ensures small { result ≤ 4 }
{
    if W::BITS == 16 { 2 } else { 4 }
}

/// The bytes of an element: a scalar is a word, also of a character type.
pub(crate) fn cell_bytes<W: Word>(o: &Object) -> u64
    ensures bytes { result ≡ cell_bytes W.BITS o.now }
    ensures small { result ≤ 4 }
{
    match o.length {
        None => word_bytes::<W>(),
        Some(_) => element_bytes::<W>(o.element),
    }
}

pub(crate) fn element_count(o: &Object) -> u32
    ensures { result ≡ element_count o.now }
{
    match o.length {
        None => 1,
        Some(length) => length,
    }
}

/// The bytes of an object's last word that it doesn't use.
pub(crate) fn filling<W: Word>(o: &Object) -> u64
    ensures { result ≡ filling W.BITS o.now }
{
    let used = cell_bytes::<W>(o) * u64::from(element_count(o));
    object_bytes::<W>(o) - used
}

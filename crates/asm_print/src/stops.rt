//! The labels and the objects of a program, in the order of their places.

ghost use Rattle.std.specs.Prelude.{◌≡◌, ◌≤◌, IfOk, length};
ghost use Rattle.std.specs.List.Sorted.{IsNonDecreasingBy, IsPermutation};
ghost use Rattle.asm_print.specs.Layout.{numbered};

use rtl_tree::NoMemory;
use rtl_value::LabelAt;
use std::alloc::Global;

/// An object, by its number among the names, and its address.
#[derive(Clone, Copy, Debug, PartialEq, Eq)]
pub(crate) struct ObjectAt {
    pub object: u16,
    pub at: u32,
}

/// The labels, in the order of the instructions at which they stand.
pub(crate) fn labels_in_order(alloc: Global, labels: &[LabelAt]) -> Result<Vec<LabelAt>, NoMemory>
    ensures all { IfOk result (λ sorted. IsPermutation labels.now sorted.items) }
    ensures order { IfOk result (λ sorted. IsNonDecreasingBy (λ l. l.at) sorted.items) }
{
    let mut sorted = Vec::from_slice(alloc, labels)?;
    sorted.sort_by_key(|label| label.at)?;
    Ok(sorted)
}

fn objects_of(alloc: Global, symbols: &[u32]) -> Result<Vec<ObjectAt>, NoMemory>
    requires few { length symbols.now ≤ 65536 }
    ensures { IfOk result (λ objects. objects.items ≡ numbered 0 symbols.now) }
{
    let mut objects = Vec::new(alloc);
    for object in 0..symbols.len() {
        let at = symbols[object];
        let object = object as u16;
        objects.push(ObjectAt { object, at })?;
    }
    Ok(objects)
}

/// The objects, in the order of their addresses.
pub(crate) fn objects_in_order(alloc: Global, symbols: &[u32]) -> Result<Vec<ObjectAt>, NoMemory>
    requires few { length symbols.now ≤ 65536 }
    ensures all { IfOk result (λ sorted. IsPermutation (numbered 0 symbols.now) sorted.items) }
    ensures order { IfOk result (λ sorted. IsNonDecreasingBy (λ o. o.at) sorted.items) }
{
    let mut sorted = objects_of(alloc, symbols)?;
    sorted.sort_by_key(|object| object.at)?;
    Ok(sorted)
}

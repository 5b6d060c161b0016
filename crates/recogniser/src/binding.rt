//! From what a search found in a row's holes to a binding.

ghost use Rattle.std.specs.Prelude.{◌≡◌, ◌≤◌, take};
ghost use Rattle.md_match.specs.Does.{known};

use md_match::Slots;
use md_rows::Binding;
use smallvec::SmallVec;
use std::alloc::Global;

/// The values of the first holes, as far as they are known. The list holds eight without an allocation.
pub(crate) fn binding_of(alloc: Global, slots: &Slots, count: usize) -> Binding
    requires { count ≤ 8 }
    ensures { result ≡ known (take count slots.now) }
{
    let mut list = SmallVec::new(alloc);
    for slot in &slots[..count] {
        if let Some(value) = *slot {
            list.push_reserved(value);
        }
    }
    Binding { list }
}

//! The instance of a row that does a transfer.

ghost use Rattle.std.specs.Prelude.{◌≡◌, ◌≤◌, ◌++◌, [], ◌∷◌, IfOk, length, take};
ghost use Rattle.rtl_word.specs.Words.{IsWordSize};
ghost use Rattle.md_match.specs.Does.{known};
ghost use Rattle.temp_shapes.specs.Instances.{IsDoer, IsDoing};

use md_match::{Slots, Task, first_match};
use md_rows::{Binding, Bound, Hole, Instance, Row};
use rtl_tree::{Assign, Effects, NoMemory};
use smallvec::SmallVec;
use std::alloc::Global;

fn with_slot(
    mut list: SmallVec<Bound, 8>,
    slot: &Option<Bound>,
) -> Result<SmallVec<Bound, 8>, NoMemory>
    ensures { IfOk result (λ more. more.items ≡ list.items ++ known (slot.now ∷ [])) }
{
    if let Some(value) = slot {
        list.push(*value)?;
    }
    Ok(list)
}

fn values(alloc: Global, slots: &[Option<Bound>]) -> Result<SmallVec<Bound, 8>, NoMemory>
    ensures { IfOk result (λ list. list.items ≡ known slots.now) }
{
    let mut list = SmallVec::new(alloc);
    for slot in slots {
        list = with_slot(list, slot)?;
    }
    Ok(list)
}

// The values of the first holes, as far as they are known.
fn binding_of(alloc: Global, slots: &Slots, count: usize) -> Result<Binding, NoMemory>
    requires { count ≤ 8 }
    ensures { IfOk result (λ b. b ≡ known (take count slots.now)) }
{
    let list = values(alloc, &slots[..count])?;
    Ok(Binding { list })
}

fn holes_of(row: &Row) -> &[Hole]
    ensures { result.now ≡ row.now.holes }
{
    row.holes.as_slice()
}

fn moves_of(effects: &Effects) -> &[Assign]
    ensures moves { result.now ≡ effects.now }
    ensures few { length result.now ≤ 6 }
{
    effects.list.as_slice()
}

fn normal_of(row: &Row) -> &[Assign]
    ensures moves { result.now ≡ row.now.normal }
    ensures few { length result.now ≤ 6 }
{
    moves_of(&row.normal)
}

/// An instance of a row that does a transfer, where the row can do it. `general` has a bit for each general register.
pub(crate) fn row_instance(
    alloc: Global,
    bits: u32,
    general: u64,
    row: &Row,
    place: u16,
    transfer: &Effects,
) -> Result<Instance, NoMemory>
    requires size { IsWordSize bits }
    requires doer { IsDoer bits general row.now transfer.now }
    ensures { IfOk result (IsDoing bits general row.now place transfer.now) }
{
    let holes = holes_of(row);
    let task = Task {
        bits,
        general,
        holes,
        flags: 255,
        barred: general,
        row: normal_of(row),
        goal: moves_of(transfer),
    };
    match first_match(&task) {
        Some(slots) => {
            let binding = binding_of(alloc, &slots, holes.len())?;
            Ok(Instance {
                row: place,
                binding,
            })
        }
        None => unreachable!(),
    }
}

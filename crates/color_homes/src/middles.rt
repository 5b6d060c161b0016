//! A transfer with registers put in.

ghost use Rattle.std.specs.Prelude.{◌≡◌, IfOk};
ghost use Rattle.md_rows.specs.Instances.{general_set};
ghost use Rattle.temp_code.specs.Realised.{IsRealised};
ghost use Rattle.color_renaming.specs.Renaming.{cell_with as cell_with_in, with_registers};
ghost use Rattle.color_renaming.specs.Does.{IsSeparate};
ghost use Rattle.row_colors.specs.Registers.{ArePutIn, binding_with as binding_with_in, bound_with as bound_with_in};
ghost use Rattle.color_homes.specs.Spilled.{register_in};

use crate::places::Places;
use crate::spilled::register_of;
use md_check::Checked;
use md_instances::effects_of;
use md_rows::{Binding, Bound, Instance};
use row_colors::registers_put_in;
use rtl_tree::{Cell, NoMemory};
use rtl_word::Word;
use smallvec::SmallVec;
use std::alloc::Global;
use temp_code::Transfer;

fn cell_with(places: &Places, spilled: &[u16], cell: Cell) -> Cell
    ensures { result ≡ cell_with_in (register_in places.now spilled.now) cell }
{
    match cell {
        Cell::Temp(k) => Cell::Hard(register_of(places, spilled, k)),
        _ => cell,
    }
}

fn bound_with(places: &Places, spilled: &[u16], value: Bound) -> Bound
    ensures { result ≡ bound_with_in (register_in places.now spilled.now) value }
{
    match value {
        Bound::Reg(cell) => Bound::Reg(cell_with(places, spilled, cell)),
        _ => value,
    }
}

fn values_with(
    alloc: Global,
    places: &Places,
    spilled: &[u16],
    values: &[Bound],
) -> Result<SmallVec<Bound, 8>, NoMemory>
    ensures { IfOk result (λ list. list.items ≡ binding_with_in (register_in places.now spilled.now) values.now) }
{
    let mut list = SmallVec::new(alloc);
    for value in values {
        list.push(bound_with(places, spilled, *value))?;
    }
    Ok(list)
}

fn binding_with(
    alloc: Global,
    places: &Places,
    spilled: &[u16],
    binding: &Binding,
) -> Result<Binding, NoMemory>
    ensures { IfOk result (λ b. b ≡ binding_with_in (register_in places.now spilled.now) binding.now) }
{
    let list = values_with(alloc, places, spilled, binding.list.as_slice())?;
    Ok(Binding { list })
}

/// The transfer with registers in place of its temporaries, and its instruction with them.
pub(crate) fn middle<W: Word>(
    alloc: Global,
    m: &Checked<W>,
    places: &Places,
    spilled: &[u16],
    transfer: &Transfer,
) -> Result<Transfer, NoMemory>
    requires realised { IsRealised m.now transfer.now }
    requires general { ArePutIn m.now (register_in places.now spilled.now) transfer.now.by.binding }
    requires separate { IsSeparate (register_in places.now spilled.now) transfer.now.what }
    ensures renamed { IfOk result (λ made. made.what ≡ with_registers (register_in places.now spilled.now) transfer.now.what) }
    ensures realised { IfOk result (IsRealised m.now) }
{
    registers_put_in();
    let _d = m.raw();
    let binding = binding_with(alloc, places, spilled, &transfer.by.binding)?;
    let by = Instance {
        row: transfer.by.row,
        binding,
    };
    let what = effects_of::<W>(alloc, m, &by)?;
    Ok(Transfer { what, by })
}

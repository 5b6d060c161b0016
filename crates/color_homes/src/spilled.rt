//! The temporaries of an instruction that are in their homes, and the registers in which they stand while it is made.

ghost use Rattle.std.specs.Prelude.{◌≡◌, IfOk};
ghost use Rattle.rtl_tree.specs.declared.cells.Cell.TheVariants.{Temp};
ghost use Rattle.md_rows.specs.declared.instance.Bound.TheVariants.{Reg};
ghost use Rattle.temp_machine.specs.Tidy.{is_among};
ghost use Rattle.color_graph.specs.Seats.{seats_in};
ghost use Rattle.color_homes.specs.Spilled.{register_in, scratch_for as scratch_for_in, spilled_in, with_spilled as with_spilled_in};

use crate::places::Places;
use md_rows::{Binding, Bound};
use rtl_tree::{Cell, NoMemory};
use smallvec::SmallVec;
use std::alloc::Global;

fn seat_of(seats: &[Option<u8>], k: u16) -> Option<u8>
    ensures { result ≡ seats_in seats.now k }
{
    match seats.get(usize::from(k)) {
        Some(seat) => *seat,
        None => None,
    }
}

fn contains(list: &[u16], k: u16) -> bool
    ensures { result ≡ is_among k list.now }
{
    match list {
        [] => false,
        [first, rest @ ..] => *first == k || contains(rest, k),
    }
}

fn with_temporary(
    mut list: SmallVec<u16, 8>,
    seats: &[Option<u8>],
    k: u16,
) -> Result<SmallVec<u16, 8>, NoMemory>
    ensures { IfOk result (λ more. more.items ≡ with_spilled_in (seats_in seats.now) list.items (Reg (Temp k))) }
{
    if seat_of(seats, k).is_some() || contains(list.as_slice(), k) {
        return Ok(list);
    }
    list.push(k)?;
    Ok(list)
}

fn with_cell(
    list: SmallVec<u16, 8>,
    seats: &[Option<u8>],
    cell: Cell,
) -> Result<SmallVec<u16, 8>, NoMemory>
    ensures { IfOk result (λ more. more.items ≡ with_spilled_in (seats_in seats.now) list.items (Reg cell)) }
{
    match cell {
        Cell::Temp(k) => with_temporary(list, seats, k),
        _ => Ok(list),
    }
}

fn with_spilled(
    list: SmallVec<u16, 8>,
    seats: &[Option<u8>],
    value: Bound,
) -> Result<SmallVec<u16, 8>, NoMemory>
    ensures { IfOk result (λ more. more.items ≡ with_spilled_in (seats_in seats.now) list.items value) }
{
    match value {
        Bound::Reg(cell) => with_cell(list, seats, cell),
        _ => Ok(list),
    }
}

fn spilled_values(
    alloc: Global,
    values: &[Bound],
    seats: &[Option<u8>],
) -> Result<SmallVec<u16, 8>, NoMemory>
    ensures { IfOk result (λ list. list.items ≡ spilled_in (seats_in seats.now) values.now) }
{
    match values {
        [] => Ok(SmallVec::new(alloc)),
        [first, rest @ ..] => with_spilled(spilled_values(alloc, rest, seats)?, seats, *first),
    }
}

/// The temporaries of a binding that are in their homes, each once.
pub(crate) fn spilled(
    alloc: Global,
    binding: &Binding,
    seats: &[Option<u8>],
) -> Result<SmallVec<u16, 8>, NoMemory>
    ensures { IfOk result (λ list. list.items ≡ spilled_in (seats_in seats.now) binding.now) }
{
    spilled_values(alloc, binding.list.as_slice(), seats)
}

fn scratch_for(spilled: &[u16], scratch: &[u8], k: u16) -> u8
    ensures { result ≡ scratch_for_in spilled.now scratch.now k }
{
    match spilled {
        [] => 0,
        [first, others @ ..] => match scratch {
            [] => 0,
            [register, rest @ ..] => {
                if *first == k {
                    *register
                } else {
                    scratch_for(others, rest, k)
                }
            }
        },
    }
}

/// The register in which a temporary stands while its transfer is made.
pub(crate) fn register_of(places: &Places, spilled: &[u16], k: u16) -> u8
    ensures { result ≡ register_in places.now spilled.now k }
{
    match seat_of(places.seats, k) {
        Some(register) => register,
        None => scratch_for(spilled, places.scratch, k),
    }
}

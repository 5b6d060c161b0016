//! What stands for a transfer: loads, the transfer with registers put in, and stores.

ghost use Rattle.std.specs.Prelude.{◌≡◌, false, All, filter, IfOk, OnOk};
ghost use Rattle.rtl_tree.specs.declared.cells.Cell.TheVariants.{Temp};
ghost use Rattle.temp_machine.specs.Cells.{reads};
ghost use Rattle.temp_machine.specs.Tidy.{sets_temporary};
ghost use Rattle.temp_code.specs.Realised.{IsRealised};
ghost use Rattle.temp_code.specs.Routines.{routine_of};
ghost use Rattle.color_graph.specs.Seats.{seats_in};
ghost use Rattle.color_renaming.specs.Renaming.{with_registers};
ghost use Rattle.color_renaming.specs.Does.{IsSeparate};
ghost use Rattle.row_colors.specs.Registers.{ArePutIn};
ghost use Rattle.color_homes.specs.Spilled.{register_in};
ghost use Rattle.color_homes.specs.Loading.{Adds, CanSpill, IsLoad};
ghost use Rattle.color_homes.specs.Putting.{ArePlaces, MayBePut, PutsAll, PutsLoads, target_in};

use crate::middles::middle;
use crate::places::Places;
use crate::reading::{those_read, those_set};
use crate::spilled::spilled;
use crate::spills::{push_loads, push_stores};
use color_image::middles_are_straight;
use color_renaming::renamed_is_plain;
use md_bounds::said_is_bounded;
use md_check::Checked;
use md_covers::laws::general_bits_are_a_sum;
use md_said::{said_is_limited, said_is_sound};
use rtl_tree::NoMemory;
use rtl_word::Word;
use sqlite_items::Items;
use std::alloc::Global;
use temp_code::Transfer;
use temp_laws::targets_are_sound;

/// Puts the loads of a transfer behind a body, and gives the transfer with registers put in.
fn push_loaded<W: Word>(
    body: &mut Items<Transfer>,
    alloc: Global,
    m: &Checked<W>,
    places: &Places,
    spilled: &[u16],
    transfer: &Transfer,
) -> Result<Transfer, NoMemory>
    requires places { ArePlaces m.now places.now }
    requires realised { IsRealised m.now transfer.now }
    requires general { ArePutIn m.now (register_in places.now spilled.now) transfer.now.by.binding }
    requires separate { IsSeparate (register_in places.now spilled.now) transfer.now.what }
    requires can { All (CanSpill m.now (routine_of places.now.code.now) (register_in places.now spilled.now)) (filter (λ k. reads (Temp k) transfer.now.what) spilled.now) }
    ensures loads { OnOk result (Adds (λ k. IsLoad m.now (target_in m.now places.now) (routine_of places.now.code.now) (register_in places.now spilled.now k) k)
        (filter (λ k. reads (Temp k) transfer.now.what) spilled.now) body.old body.new) }
    ensures renamed { IfOk result (λ made. made.what ≡ with_registers (register_in places.now spilled.now) transfer.now.what) }
    ensures realised { IfOk result (IsRealised m.now) }
{
    let operands = those_read(alloc, spilled, &transfer.what)?;
    push_loads::<W>(body, alloc, m, places, spilled, operands.as_slice())?;
    middle::<W>(alloc, m, places, spilled, transfer)
}

/// Puts what stands for a transfer behind a body.
pub fn push_transfer<W: Word>(
    body: &mut Items<Transfer>,
    alloc: Global,
    m: &Checked<W>,
    places: &Places,
    transfer: &Transfer,
) -> Result<(), NoMemory>
    requires places { ArePlaces m.now places.now }
    requires realised { IsRealised m.now transfer.now }
    requires put { MayBePut (target_in m.now places.now) (routine_of places.now.code.now) (seats_in places.now.seats.now) transfer.now.what }
    ensures { OnOk result (PutsAll m.now places.now transfer.now body.old body.new) }
{
    said_is_sound();
    said_is_limited();
    said_is_bounded();
    general_bits_are_a_sum();
    renamed_is_plain();
    middles_are_straight();
    targets_are_sound();
    let _d = m.raw();
    let list = spilled(alloc, &transfer.by.binding, places.seats)?;
    let standing = list.as_slice();
    let made = push_loaded::<W>(body, alloc, m, places, standing, transfer)?;
    body.push(made)?;
    let results = those_set(alloc, standing, &transfer.what)?;
    push_stores::<W>(body, alloc, m, places, standing, results.as_slice())
}

/// Puts the loads of the transfer of an end behind the body, and gives the transfer with registers put in.
pub fn push_operands<W: Word>(
    body: &mut Items<Transfer>,
    alloc: Global,
    m: &Checked<W>,
    places: &Places,
    transfer: &Transfer,
) -> Result<Transfer, NoMemory>
    requires places { ArePlaces m.now places.now }
    requires realised { IsRealised m.now transfer.now }
    requires put { MayBePut (target_in m.now places.now) (routine_of places.now.code.now) (seats_in places.now.seats.now) transfer.now.what }
    requires no_result { sets_temporary transfer.now.what ≡ false }
    ensures { IfOk result (λ made. PutsLoads m.now places.now transfer.now made body.old body.new) }
{
    said_is_sound();
    said_is_limited();
    said_is_bounded();
    general_bits_are_a_sum();
    renamed_is_plain();
    middles_are_straight();
    targets_are_sound();
    let _d = m.raw();
    let list = spilled(alloc, &transfer.by.binding, places.seats)?;
    let standing = list.as_slice();
    push_loaded::<W>(body, alloc, m, places, standing, transfer)
}

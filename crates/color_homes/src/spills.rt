//! Loads of homes and stores to them, by instructions.

ghost use Rattle.std.specs.Prelude.{◌≡◌, ◌<◌, ℕ, All, IfOk, OnOk, Some, true};
ghost use Rattle.rtl_tree.specs.declared.cells.Cell.TheVariants.{Hard};
ghost use Rattle.md_rows.specs.Fits.{is_in};
ghost use Rattle.md_rows.specs.Instances.{general_set};
ghost use Rattle.md_shapes.specs.Drawings.{frame_of};
ghost use Rattle.md_shapes.specs.declared.patterns.Pattern.TheVariants.{LoadHome, StoreHome};
ghost use Rattle.temp_code.specs.Realised.{IsRealised};
ghost use Rattle.temp_code.specs.Routines.{routine_of};
ghost use Rattle.temp_shapes.specs.Elementary.{IsTransferOf};
ghost use Rattle.color_spilling.specs.Spilling.{home_offset as home_offset_in};
ghost use Rattle.color_homes.specs.Spilled.{register_in};
ghost use Rattle.color_homes.specs.Putting.{ArePlaces, target_in};
ghost use Rattle.color_homes.specs.Loading.{Adds, CanSpill, HasHome, IsLoad, IsRegister, IsStore, at_home, is_home};

use crate::places::Places;
use crate::spilled::register_of;
use color_image::homes_are_straight;
use md_check::Checked;
use md_covers::laws::general_bits_are_a_sum;
use md_said::{said_is_limited, said_is_sound};
use md_shapes::Pattern;
use row_colors::{homes_are_numbers, loads_do, stores_do};
use rtl_tree::{Cell, Lab, NoMemory};
use rtl_word::Word;
use sqlite_items::Items;
use std::alloc::Global;
use temp_code::{Code, Transfer};
use temp_laws::{names_are_shapes, required_covered};
use temp_shapes::{Operands, transfer_of};

/// How many bytes above the stack register the home of a temporary is.
fn home_offset<W: Word>(m: &Checked<W>, places: &Places, k: u16) -> u32
    requires places { ArePlaces m.now places.now }
    requires home { HasHome (routine_of places.now.code.now) k }
    ensures { result ≡ home_offset_in (target_in m.now places.now) (routine_of places.now.code.now) k }
{
    said_is_sound();
    let bytes = m.raw().word / 8;
    let code = places.code;
    let home = code.homes.as_slice()[usize::from(k)];
    code.first_home + bytes * u32::from(home)
}

/// The transfer of a shape of homes, with a register.
fn home_transfer<W: Word>(
    alloc: Global,
    m: &Checked<W>,
    places: &Places,
    pattern: Pattern,
    register: u8,
    k: u16,
) -> Result<Transfer, NoMemory>
    requires places { ArePlaces m.now places.now }
    requires pattern { is_home pattern ≡ true }
    requires register { IsRegister m.now register }
    requires home { HasHome (routine_of places.now.code.now) k }
    ensures shape { IfOk result (IsTransferOf m.now (frame_of m.now.word places.now.rows.now.frame) pattern
        (at_home register (home_offset_in (target_in m.now places.now) (routine_of places.now.code.now) k))) }
    ensures realised { IfOk result (IsRealised m.now) }
{
    said_is_sound();
    said_is_limited();
    general_bits_are_a_sum();
    required_covered();
    homes_are_numbers();
    let _d = m.raw();
    let number = home_offset::<W>(m, places, k);
    let operands = Operands {
        a: Cell::Hard(register),
        b: Cell::Hard(register),
        number,
        symbol: 0,
        label: Lab::Block(0),
    };
    transfer_of::<W>(alloc, m, places.rows, pattern, operands)
}

fn load<W: Word>(
    alloc: Global,
    m: &Checked<W>,
    places: &Places,
    register: u8,
    k: u16,
) -> Result<Transfer, NoMemory>
    requires places { ArePlaces m.now places.now }
    requires register { IsRegister m.now register }
    requires home { HasHome (routine_of places.now.code.now) k }
    ensures { IfOk result (IsLoad m.now (target_in m.now places.now) (routine_of places.now.code.now) register k) }
{
    loads_do();
    homes_are_straight();
    names_are_shapes();
    said_is_sound();
    said_is_limited();
    general_bits_are_a_sum();
    homes_are_numbers();
    let _d = m.raw();
    home_transfer::<W>(alloc, m, places, Pattern::LoadHome, register, k)
}

fn store<W: Word>(
    alloc: Global,
    m: &Checked<W>,
    places: &Places,
    register: u8,
    k: u16,
) -> Result<Transfer, NoMemory>
    requires places { ArePlaces m.now places.now }
    requires register { IsRegister m.now register }
    requires home { HasHome (routine_of places.now.code.now) k }
    ensures { IfOk result (IsStore m.now (target_in m.now places.now) (routine_of places.now.code.now) register k) }
{
    stores_do();
    homes_are_straight();
    names_are_shapes();
    said_is_sound();
    said_is_limited();
    general_bits_are_a_sum();
    homes_are_numbers();
    let _d = m.raw();
    home_transfer::<W>(alloc, m, places, Pattern::StoreHome, register, k)
}

/// Puts the loads of temporaries behind a body.
pub(crate) fn push_loads<W: Word>(
    body: &mut Items<Transfer>,
    alloc: Global,
    m: &Checked<W>,
    places: &Places,
    spilled: &[u16],
    operands: &[u16],
) -> Result<(), NoMemory>
    requires places { ArePlaces m.now places.now }
    requires can { All (CanSpill m.now (routine_of places.now.code.now) (register_in places.now spilled.now)) operands.now }
    ensures { OnOk result (Adds (λ k. IsLoad m.now (target_in m.now places.now) (routine_of places.now.code.now)
        (register_in places.now spilled.now k) k) operands.now body.old body.new) }
{
    for k in operands {
        let register = register_of(places, spilled, *k);
        body.push(load::<W>(alloc, m, places, register, *k)?)?;
    }
    Ok(())
}

/// Puts the stores of temporaries behind a body.
pub(crate) fn push_stores<W: Word>(
    body: &mut Items<Transfer>,
    alloc: Global,
    m: &Checked<W>,
    places: &Places,
    spilled: &[u16],
    results: &[u16],
) -> Result<(), NoMemory>
    requires places { ArePlaces m.now places.now }
    requires can { All (CanSpill m.now (routine_of places.now.code.now) (register_in places.now spilled.now)) results.now }
    ensures { OnOk result (Adds (λ k. IsStore m.now (target_in m.now places.now) (routine_of places.now.code.now)
        (register_in places.now spilled.now k) k) results.now body.old body.new) }
{
    for k in results {
        let register = register_of(places, spilled, *k);
        body.push(store::<W>(alloc, m, places, register, *k)?)?;
    }
    Ok(())
}

//! Turns that set flags beside a value.

ghost use Rattle.std.specs.Prelude.{None, slice_set, ◌<◌, ◌^◌, ◌≡◌};
ghost use Rattle.machine_turn.specs.Held.{IsHeld, IsPlain, state_of};
ghost use Rattle.machine_turn.specs.Turn.{made_by};
ghost use Rattle.machine_forms.specs.Forms.{AreFlags, IsFlag, address_tree, form_moves, value_tree};
ghost use Rattle.machine_forms.specs.Going.{GoesAs, flag_in, flags_in};

use crate::forms::{Address, FlagTo, FlagsTo, Form, Value};
use crate::making::set_register;
use crate::memory::{place, store};
use crate::values::{address, value};
use machine_turn::Held;
use rtl_tree::Width;
use rtl_value::{FlagPair, Trap};
use rtl_word::Word;

#[inline(always)]
fn set_flag<W: Word>(to: FlagTo, x: u32, k: u32, s: &mut Held)
    requires held { IsHeld W.BITS s.old }
    requires flag { IsFlag to }
    requires value { x < 2 ^ W.BITS }
    requires number { k < 2 ^ W.BITS }
    ensures set { s.new ≡ record s.old { flags = flag_in to x k s.old.flags } }
    ensures held { IsHeld W.BITS s.new }
{
    match to {
        FlagTo::Compared(n) => {
            s.flags[usize::from(n)] = Some(FlagPair { left: x, right: k });
        }
        FlagTo::Lost(n) => s.flags[usize::from(n)] = None,
    }
}

/// The first flag is set last: of two assignments to one flag the first counts.
#[inline(always)]
fn set_flags<W: Word>(x: u32, f: FlagsTo, s: &mut Held)
    requires held { IsHeld W.BITS s.old }
    requires flags { AreFlags W.BITS f }
    requires value { x < 2 ^ W.BITS }
    ensures set { s.new ≡ record s.old { flags = flags_in x f s.old.flags } }
    ensures held { IsHeld W.BITS s.new }
{
    set_flag::<W>(f.third, x, f.number, s);
    set_flag::<W>(f.second, x, f.number, s);
    set_flag::<W>(FlagTo::Compared(f.first), x, f.number, s);
}

#[inline(always)]
pub fn set_with_flags<W: Word>(n: u8, v: Value, f: FlagsTo, s: &mut Held) -> Result<u32, Trap>
    requires held { IsHeld W.BITS s.old }
    requires register { n < 64 }
    requires plain { IsPlain W.BITS (value_tree v) }
    requires flags { AreFlags W.BITS f }
    ensures goes { GoesAs (made_by W.BITS None (form_moves (Form.SetFlags n v f)) (state_of s.old)) s.old s.new result }
    ensures held { IsHeld W.BITS s.new }
{
    match value::<W>(v, s) {
        Ok(x) => {
            set_flags::<W>(x, f, s);
            set_register::<W>(n, x, s);
            Ok(s.next)
        }
        Err(trap) => Err(trap),
    }
}

#[inline(always)]
pub fn put_with_flags<W: Word>(
    width: Width,
    p: Address,
    v: Value,
    f: FlagsTo,
    s: &mut Held,
) -> Result<u32, Trap>
    requires held { IsHeld W.BITS s.old }
    requires address { IsPlain W.BITS (address_tree p) }
    requires plain { IsPlain W.BITS (value_tree v) }
    requires flags { AreFlags W.BITS f }
    ensures goes { GoesAs (made_by W.BITS None (form_moves (Form.StoreFlags width p v f)) (state_of s.old)) s.old s.new result }
    ensures held { IsHeld W.BITS s.new }
{
    match value::<W>(v, s) {
        Ok(x) => {
            let at = address::<W>(p, s);
            match place::<W>(width, s.memory.len(), at) {
                Ok(at) => {
                    store::<W>(&mut s.memory, width, at as usize, x);
                    set_flags::<W>(x, f, s);
                    Ok(s.next)
                }
                Err(trap) => Err(trap),
            }
        }
        Err(trap) => Err(trap),
    }
}

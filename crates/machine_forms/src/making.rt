//! A turn of a form.

ghost use Rattle.std.specs.Prelude.{None, slice_set, ◌<◌, ◌^◌, ◌≡◌};
ghost use Rattle.machine_turn.specs.Held.{IsHeld, IsPlain, state_of};
ghost use Rattle.machine_turn.specs.Turn.{made_by};
ghost use Rattle.machine_forms.specs.Forms.{IsFit, address_tree, form_moves, source_tree, value_tree};
ghost use Rattle.machine_forms.specs.Going.{GoesAs};

use crate::flags::{put_with_flags, set_with_flags};
use crate::forms::{Address, Form, Source, Value};
use crate::memory::{place, store};
use crate::values::{address, source, test_flag, value};
use machine_turn::Held;
use rtl_tree::Width;
use rtl_value::Trap;
use rtl_word::{Rel, Word};

/// Puts a word into a register.
#[inline(always)]
pub fn set_register<W: Word>(n: u8, x: u32, s: &mut Held)
    requires held { IsHeld W.BITS s.old }
    requires register { n < 64 }
    requires value { x < 2 ^ W.BITS }
    ensures set { s.new ≡ record s.old { registers = slice_set s.old.registers n x } }
    ensures held { IsHeld W.BITS s.new }
{
    s.registers[usize::from(n)] = x;
}

#[inline(always)]
fn set<W: Word>(n: u8, v: Value, s: &mut Held) -> Result<u32, Trap>
    requires held { IsHeld W.BITS s.old }
    requires register { n < 64 }
    requires plain { IsPlain W.BITS (value_tree v) }
    ensures goes { GoesAs (made_by W.BITS None (form_moves (Form.Set n v)) (state_of s.old)) s.old s.new result }
    ensures held { IsHeld W.BITS s.new }
{
    match value::<W>(v, s) {
        Ok(x) => {
            set_register::<W>(n, x, s);
            Ok(s.next)
        }
        Err(trap) => Err(trap),
    }
}

#[inline(always)]
fn put<W: Word>(width: Width, a: Address, v: Value, s: &mut Held) -> Result<u32, Trap>
    requires held { IsHeld W.BITS s.old }
    requires address { IsPlain W.BITS (address_tree a) }
    requires plain { IsPlain W.BITS (value_tree v) }
    ensures goes { GoesAs (made_by W.BITS None (form_moves (Form.Store width a v)) (state_of s.old)) s.old s.new result }
    ensures held { IsHeld W.BITS s.new }
{
    match value::<W>(v, s) {
        Ok(x) => {
            let at = address::<W>(a, s);
            match place::<W>(width, s.memory.len(), at) {
                Ok(at) => {
                    store::<W>(&mut s.memory, width, at as usize, x);
                    Ok(s.next)
                }
                Err(trap) => Err(trap),
            }
        }
        Err(trap) => Err(trap),
    }
}

#[inline(always)]
fn branch<W: Word>(r: Rel, a: Source, b: Source, l: u32, s: &Held) -> Result<u32, Trap>
    requires held { IsHeld W.BITS s.now }
    requires a_plain { IsPlain W.BITS (source_tree a) }
    requires b_plain { IsPlain W.BITS (source_tree b) }
    ensures goes { GoesAs (made_by W.BITS None (form_moves (Form.Branch r a b l)) (state_of s.now)) s.now s.now result }
{
    let x = match source::<W>(a, s) {
        Ok(x) => x,
        Err(trap) => return Err(trap),
    };
    let y = match source::<W>(b, s) {
        Ok(y) => y,
        Err(trap) => return Err(trap),
    };
    Ok(if W::rel(r, x, y) == 0 { s.next } else { l })
}

#[inline(always)]
fn test<W: Word>(r: Rel, f: u8, l: u32, s: &Held) -> Result<u32, Trap>
    requires held { IsHeld W.BITS s.now }
    ensures goes { GoesAs (made_by W.BITS None (form_moves (Form.Test r f l)) (state_of s.now)) s.now s.now result }
{
    match test_flag::<W>(r, f, s) {
        Ok(x) => Ok(if x == 0 { s.next } else { l }),
        Err(trap) => Err(trap),
    }
}

#[inline(always)]
fn jump<W: Word>(a: Source, s: &Held) -> Result<u32, Trap>
    requires held { IsHeld W.BITS s.now }
    requires plain { IsPlain W.BITS (source_tree a) }
    ensures goes { GoesAs (made_by W.BITS None (form_moves (Form.Jump a)) (state_of s.now)) s.now s.now result }
{
    source::<W>(a, s)
}

#[inline(always)]
fn link<W: Word>(n: u8, l: u32, s: &mut Held) -> Result<u32, Trap>
    requires held { IsHeld W.BITS s.old }
    requires register { n < 64 }
    ensures goes { GoesAs (made_by W.BITS None (form_moves (Form.Link n l)) (state_of s.old)) s.old s.new result }
    ensures held { IsHeld W.BITS s.new }
{
    set_register::<W>(n, s.next, s);
    Ok(l)
}

/// Makes the transfer of a form, and tells where the program goes on, or the trap.
#[inline(always)]
pub fn make_form<W: Word>(form: &Form, s: &mut Held) -> Result<u32, Trap>
    requires held { IsHeld W.BITS s.old }
    requires fit { IsFit W.BITS form.now }
    ensures goes { GoesAs (made_by W.BITS None (form_moves form.now) (state_of s.old)) s.old s.new result }
    ensures held { IsHeld W.BITS s.new }
{
    match form {
        Form::Set(n, v) => set::<W>(*n, *v, s),
        Form::Store(width, a, v) => put::<W>(*width, *a, *v, s),
        Form::Branch(r, a, b, l) => branch::<W>(*r, *a, *b, *l, s),
        Form::Test(r, f, l) => test::<W>(*r, *f, *l, s),
        Form::Jump(a) => jump::<W>(*a, s),
        Form::Link(n, l) => link::<W>(*n, *l, s),
        Form::SetFlags(n, v, f) => set_with_flags::<W>(*n, *v, *f, s),
        Form::StoreFlags(width, a, v, f) => put_with_flags::<W>(*width, *a, *v, *f, s),
    }
}

//! A transfer, tested or made.

ghost use Rattle.std.specs.Prelude.{All, IfOk, length, slice_set, ◌<◌, ◌^◌, ◌≡◌};
ghost use Rattle.rtl_effect.specs.Effects.{takes};
ghost use Rattle.rtl_value.specs.Values.{IsPairOfWords};
ghost use Rattle.machine_turn.specs.Held.{IsHeld, IsMadeMove, state_of};
ghost use Rattle.machine_turn.specs.Turn.{ComesOut, IsFit, IsOutcome, IsStored, made_by, made_of, memory_with, put, tested_by, word_given};

use crate::assigned::{Assigned, Outcome, Stored};
use crate::evaluating::{evaluate, takes};
use crate::held::Held;
use crate::memory::put_bytes;
use rtl_tree::Assign;
use rtl_value::{FlagPair, Trap};
use rtl_word::Word;

/// Whether a transfer takes a byte of the input.
pub fn takes_input(moves: &[Assign]) -> bool
    ensures { result ≡ takes moves.now }
{
    match moves {
        [] => false,
        [first, rest @ ..] => takes(&first.value) || takes_input(rest),
    }
}

/// Evaluates each side and address of a transfer, and tells the first trap.
pub fn test<W: Word>(moves: &[Assign], s: &Held) -> Result<(), Trap>
    requires held { IsHeld W.BITS s.now }
    requires made { All (IsMadeMove W.BITS) moves.now }
    ensures { result ≡ tested_by W.BITS moves.now (state_of s.now) }
{
    match moves {
        [] => Ok(()),
        [first, rest @ ..] => {
            evaluate::<W>(&first.to, &first.value, s)?;
            test::<W>(rest, s)
        }
    }
}

#[inline(always)]
fn word_given<W: Word>(given: Option<u8>) -> u32
    ensures value { result ≡ word_given W.BITS given }
    ensures fits { result < 2 ^ W.BITS }
{
    match given {
        Some(byte) => u32::from(byte),
        None => W::not(0),
    }
}

#[inline(always)]
fn set_register<W: Word>(s: &mut Held, register: u8, value: u32)
    requires held { IsHeld W.BITS s.old }
    requires register { register < 64 }
    requires value { value < 2 ^ W.BITS }
    ensures set { s.new ≡ record s.old { registers = slice_set s.old.registers register value } }
    ensures held { IsHeld W.BITS s.new }
{
    s.registers[usize::from(register)] = value;
}

#[inline(always)]
fn set_flag<W: Word>(s: &mut Held, flag: u8, pair: Option<FlagPair>)
    requires held { IsHeld W.BITS s.old }
    requires flag { flag < 8 }
    requires pair { IsPairOfWords W.BITS pair }
    ensures set { s.new ≡ record s.old { flags = slice_set s.old.flags flag pair } }
    ensures held { IsHeld W.BITS s.new }
{
    s.flags[usize::from(flag)] = pair;
}

/// Makes one assignment.
fn assign<W: Word>(a: Assigned, given: Option<u8>, s: &mut Held, outcome: Outcome) -> Outcome
    requires held { IsHeld W.BITS s.old }
    requires fit { IsFit W.BITS (length s.old.memory.items) a }
    requires outcome { IsOutcome W.BITS (length s.old.memory.items) outcome }
    ensures made { made_of s.new result ≡ put W.BITS given a (made_of s.old outcome) }
    ensures memory { s.new.memory ≡ s.old.memory }
    ensures next { s.new.next ≡ s.old.next }
    ensures held { IsHeld W.BITS s.new }
    ensures outcome { IsOutcome W.BITS (length s.old.memory.items) result }
{
    let mut outcome = outcome;
    match a {
        Assigned::Word { register, value } => set_register::<W>(s, register, value),
        Assigned::Taken { register } => set_register::<W>(s, register, word_given::<W>(given)),
        Assigned::Compared { flag, left, right } => {
            set_flag::<W>(s, flag, Some(FlagPair { left, right }));
        }
        Assigned::Lost { flag } => set_flag::<W>(s, flag, None),
        Assigned::Next { place } => outcome.place = place,
        Assigned::Printed { byte } => outcome.printed = Some(byte),
        Assigned::Ended { status } => outcome.status = Some(status),
        Assigned::Bytes(stored) => outcome.stored = Some(stored),
    }
    outcome
}

/// Makes a transfer but for what it stores, where `given` is the byte that it takes of the input, or none at the end.
pub fn make<W: Word>(moves: &[Assign], given: Option<u8>, s: &mut Held) -> Result<Outcome, Trap>
    requires held { IsHeld W.BITS s.old }
    requires made { All (IsMadeMove W.BITS) moves.now }
    ensures made { ComesOut (made_by W.BITS given moves.now (state_of s.old)) s.old s.new result }
    ensures held { IsHeld W.BITS s.new }
    ensures outcome { IfOk result (λ outcome. IsOutcome W.BITS (length s.old.memory.items) outcome) }
{
    match moves {
        [] => Ok(Outcome {
            place: s.next,
            printed: None,
            status: None,
            stored: None,
        }),
        [first, rest @ ..] => {
            let a = evaluate::<W>(&first.to, &first.value, s)?;
            let outcome = make::<W>(rest, given, s)?;
            Ok(assign::<W>(a, given, s, outcome))
        }
    }
}

/// Stores what a transfer stores.
pub fn store<W: Word>(s: &mut Held, stored: Option<Stored>)
    requires held { IsHeld W.BITS s.old }
    requires stored { IsStored (length s.old.memory.items) stored }
    ensures memory { s.new.memory.items ≡ memory_with stored s.old.memory.items }
    ensures registers { s.new.registers ≡ s.old.registers }
    ensures flags { s.new.flags ≡ s.old.flags }
    ensures next { s.new.next ≡ s.old.next }
    ensures held { IsHeld W.BITS s.new }
{
    if let Some(bytes) = stored {
        put_bytes(&mut s.memory, bytes.at as usize, bytes.count, bytes.value);
    }
}

//! One instruction.

ghost use Rattle.std.specs.Prelude.{All, None, Ok, OnErr, OnOk, Some, false, length, slice_get, true, ◌+◌, ◌<◌, ◌≡◌};
ghost use Rattle.vp_io.specs.Counts.{HasCause};
ghost use Rattle.rtl_effect.specs.Effects.{takes};
ghost use Rattle.machine_devices.specs.Devices.{Prints};
ghost use Rattle.machine_run.specs.Machine.{byte_out};
ghost use Rattle.machine_turn.specs.Held.{IsMadeMove, state_of};
ghost use Rattle.machine_turn.specs.Turn.{IsOutcome, made_by, made_of, tested_by};
ghost use Rattle.machine_effect.specs.Turns.{halted_by, turned_by};
ghost use Rattle.machine_step.specs.Steps.{AloneIs, Answers, HasCauses, IsCode, IsReady, KeepsRunning, PrintsPart, StepIs, TakeIs, fault_of};

use crate::running::{Running, Stop};
use crate::stopping::{halt, note, trapped};
use machine_devices::Buffer;
use machine_turn::{Outcome, make, store, takes_input, test};
use rtl_tree::{Assign, Effects};
use rtl_value::Trap;
use rtl_word::Word;
use vp_io::{Failed, Sink, Source};

/// Prints a byte, if there is one.
fn print<K: Sink>(waiting: &mut Buffer, printed: Option<u8>, sink: &mut K) -> Result<(), Failed>
    requires room { length waiting.old < 4096 }
    ensures prints { OnOk result (Prints (K.written sink.old) waiting.old (K.written sink.new) waiting.new (byte_out printed)) }
    ensures part { OnErr result (PrintsPart (K.written sink.old) waiting.old (K.written sink.new) (byte_out printed)) }
    ensures room { length waiting.new < 4096 }
    ensures cause { HasCause (K.faults sink.old) (K.faults sink.new) result }
{
    match printed {
        None => Ok(()),
        Some(byte) => waiting.put(byte, sink),
    }
}

/// Stores, prints and ends, or goes on at another place.
fn settle<W: Word, K: Sink>(m: &mut Running, outcome: Outcome, sink: &mut K) -> Option<Stop>
    requires ready { IsReady W.BITS m.old }
    requires goes { m.old.stopped ≡ None }
    requires outcome { IsOutcome W.BITS (length m.old.held.memory.items) outcome }
    ensures answers { Answers (halted_by outcome.status (made_of m.old.held outcome) (state_of m.old.held)) m.old.waiting m.new (K.written sink.old) (K.written sink.new) result }
    ensures reader { m.new.reader ≡ m.old.reader }
    ensures ready { IsReady W.BITS m.new }
    ensures causes { HasCauses 0 0 (K.faults sink.old) (K.faults sink.new) result }
{
    store::<W>(&mut m.held, outcome.stored);
    match print(&mut m.waiting, outcome.printed, sink) {
        Err(_) => Some(note(m, Stop::WriteFault)),
        Ok(()) => match outcome.status {
            Some(status) => Some(halt::<W, K>(m, Stop::Ended(status), sink)),
            None => {
                m.place = outcome.place;
                None
            }
        },
    }
}

/// A byte for an instruction that takes one, before which what waits is written; none where the end was seen.
fn take<W: Word, S: Source, K: Sink>(
    m: &mut Running,
    source: &mut S,
    sink: &mut K,
) -> Result<Option<u8>, Stop>
    requires ready { IsReady W.BITS m.old }
    ensures takes { TakeIs m.old m.new (S.left source.old) (S.left source.new) (K.written sink.old) (K.written sink.new) (S.ends source.old) (S.ends source.new) result }
    ensures kept { KeepsRunning m.old m.new }
    ensures ready { IsReady W.BITS m.new }
    ensures causes { HasCauses (S.faults source.old) (S.faults source.new) (K.faults sink.old) (K.faults sink.new) (fault_of result) }
{
    if m.reader.ended {
        return Ok(None);
    }
    match m.waiting.flush(sink) {
        Ok(()) => {}
        Err(_) => return Err(Stop::WriteFault),
    }
    match m.reader.next_byte(source) {
        Ok(given) => Ok(given),
        Err(_) => Err(Stop::ReadFault),
    }
}

/// Makes a transfer that doesn't trap, given the byte that it takes.
fn make_given<W: Word, K: Sink>(
    moves: &[Assign],
    given: Option<u8>,
    m: &mut Running,
    sink: &mut K,
) -> Option<Stop>
    requires ready { IsReady W.BITS m.old }
    requires goes { m.old.stopped ≡ None }
    requires made { All (IsMadeMove W.BITS) moves.now }
    requires fine { tested_by W.BITS moves.now (state_of m.old.held) ≡ Ok tt }
    ensures answers { Answers (turned_by (made_by W.BITS given moves.now (state_of m.old.held)) (state_of m.old.held)) m.old.waiting m.new (K.written sink.old) (K.written sink.new) result }
    ensures reader { m.new.reader ≡ m.old.reader }
    ensures ready { IsReady W.BITS m.new }
    ensures causes { HasCauses 0 0 (K.faults sink.old) (K.faults sink.new) result }
{
    match make::<W>(moves, given, &mut m.held) {
        Ok(outcome) => settle::<W, K>(m, outcome, sink),
        Err(_) => unreachable!(),
    }
}

/// Makes an instruction that takes a byte and doesn't trap.
fn make_taken<W: Word, S: Source, K: Sink>(
    moves: &[Assign],
    m: &mut Running,
    source: &mut S,
    sink: &mut K,
) -> Option<Stop>
    requires ready { IsReady W.BITS m.old }
    requires goes { m.old.stopped ≡ None }
    requires made { All (IsMadeMove W.BITS) moves.now }
    requires takes { takes moves.now ≡ true }
    requires next { m.old.held.next ≡ m.old.place + 1 }
    requires fine { tested_by W.BITS moves.now (state_of m.old.held) ≡ Ok tt }
    ensures step { StepIs W.BITS (Some moves.now) m.old m.new (S.left source.old) (S.left source.new) (K.written sink.old) (K.written sink.new) (S.ends source.old) (S.ends source.new) (K.faults sink.old) (K.faults sink.new) result }
    ensures ready { IsReady W.BITS m.new }
    ensures causes { HasCauses (S.faults source.old) (S.faults source.new) (K.faults sink.old) (K.faults sink.new) result }
{
    match take::<W, S, K>(m, source, sink) {
        Err(stop) => Some(note(m, stop)),
        Ok(given) => make_given::<W, K>(moves, given, m, sink),
    }
}

/// Makes an instruction that takes a byte. Where it traps it takes none.
fn take_and_make<W: Word, S: Source, K: Sink>(
    moves: &[Assign],
    m: &mut Running,
    source: &mut S,
    sink: &mut K,
) -> Option<Stop>
    requires ready { IsReady W.BITS m.old }
    requires goes { m.old.stopped ≡ None }
    requires made { All (IsMadeMove W.BITS) moves.now }
    requires takes { takes moves.now ≡ true }
    requires next { m.old.held.next ≡ m.old.place + 1 }
    ensures step { StepIs W.BITS (Some moves.now) m.old m.new (S.left source.old) (S.left source.new) (K.written sink.old) (K.written sink.new) (S.ends source.old) (S.ends source.new) (K.faults sink.old) (K.faults sink.new) result }
    ensures ready { IsReady W.BITS m.new }
    ensures causes { HasCauses (S.faults source.old) (S.faults source.new) (K.faults sink.old) (K.faults sink.new) result }
{
    match test::<W>(moves, &m.held) {
        Err(trap) => Some(trapped::<W, K>(m, trap, sink)),
        Ok(()) => make_taken::<W, S, K>(moves, m, source, sink),
    }
}

/// Makes an instruction that takes no byte.
fn make_alone<W: Word, K: Sink>(moves: &[Assign], m: &mut Running, sink: &mut K) -> Option<Stop>
    requires ready { IsReady W.BITS m.old }
    requires goes { m.old.stopped ≡ None }
    requires made { All (IsMadeMove W.BITS) moves.now }
    requires next { m.old.held.next ≡ m.old.place + 1 }
    requires takes { takes moves.now ≡ false }
    ensures step { AloneIs W.BITS (Some moves.now) m.old m.new (K.written sink.old) (K.written sink.new) (K.faults sink.old) (K.faults sink.new) result }
    ensures ready { IsReady W.BITS m.new }
    ensures causes { HasCauses 0 0 (K.faults sink.old) (K.faults sink.new) result }
{
    match make::<W>(moves, None, &mut m.held) {
        Ok(outcome) => settle::<W, K>(m, outcome, sink),
        Err(trap) => Some(trapped::<W, K>(m, trap, sink)),
    }
}

/// Makes the instruction that is next, by its transfer.
pub fn make_line<W: Word, S: Source, K: Sink>(
    moves: &[Assign],
    m: &mut Running,
    source: &mut S,
    sink: &mut K,
) -> Option<Stop>
    requires ready { IsReady W.BITS m.old }
    requires goes { m.old.stopped ≡ None }
    requires made { All (IsMadeMove W.BITS) moves.now }
    requires next { m.old.held.next ≡ m.old.place + 1 }
    ensures step { StepIs W.BITS (Some moves.now) m.old m.new (S.left source.old) (S.left source.new) (K.written sink.old) (K.written sink.new) (S.ends source.old) (S.ends source.new) (K.faults sink.old) (K.faults sink.new) result }
    ensures ready { IsReady W.BITS m.new }
    ensures causes { HasCauses (S.faults source.old) (S.faults source.new) (K.faults sink.old) (K.faults sink.new) result }
{
    if takes_input(moves) {
        return take_and_make::<W, S, K>(moves, m, source, sink);
    }
    make_alone::<W, K>(moves, m, sink)
}

/// Makes the instruction that is next, or traps where there is none.
pub fn go<W: Word, S: Source, K: Sink>(
    code: &[Effects],
    m: &mut Running,
    source: &mut S,
    sink: &mut K,
) -> Option<Stop>
    requires code { IsCode W.BITS code.now }
    requires ready { IsReady W.BITS m.old }
    requires goes { m.old.stopped ≡ None }
    ensures step { StepIs W.BITS (slice_get code.now m.old.place) m.old m.new (S.left source.old) (S.left source.new) (K.written sink.old) (K.written sink.new) (S.ends source.old) (S.ends source.new) (K.faults sink.old) (K.faults sink.new) result }
    ensures ready { IsReady W.BITS m.new }
    ensures causes { HasCauses (S.faults source.old) (S.faults source.new) (K.faults sink.old) (K.faults sink.new) result }
{
    let place = m.place as usize;
    if code.len() <= place {
        return Some(trapped::<W, K>(m, Trap::Place, sink));
    }
    m.held.next = m.place + 1;
    let line = &code[place];
    make_line::<W, S, K>(line.list.as_slice(), m, source, sink)
}

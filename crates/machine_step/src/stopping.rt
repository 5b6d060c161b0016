//! Stops: what waits is written, and the machine answers the same from then on.

ghost use Rattle.std.specs.Prelude.{Some, ◌≡◌};
ghost use Rattle.machine_run.specs.Machine.{trap_number};
ghost use Rattle.machine_step.specs.Steps.{HaltIs, IsReady, KeepsHeld};

use crate::running::{Running, Stop};
use rtl_value::Trap;
use rtl_word::Word;
use vp_io::Sink;

fn number(trap: Trap) -> u8
    ensures { result ≡ trap_number trap }
{
    match trap {
        Trap::Divide => 1,
        Trap::Shift => 2,
        Trap::Address => 3,
        Trap::Align => 4,
        Trap::LostFlag => 5,
        Trap::Place => 6,
    }
}

/// Notes why the machine stops.
pub fn note(m: &mut Running, stop: Stop) -> Stop
    ensures answer { result ≡ stop }
    ensures noted { m.new ≡ record m.old { stopped = Some stop } }
{
    m.stopped = Some(stop);
    stop
}

/// Writes what waits and stops: as it was to stop, or by the fault of the write.
pub fn halt<W: Word, K: Sink>(m: &mut Running, stop: Stop, sink: &mut K) -> Stop
    requires ready { IsReady W.BITS m.old }
    ensures halts { HaltIs (K.written sink.old) (K.written sink.new) m.old.waiting (K.faults sink.old) (K.faults sink.new) stop result }
    ensures stopped { m.new.stopped ≡ Some result }
    ensures kept { KeepsHeld m.old m.new }
    ensures ready { IsReady W.BITS m.new }
{
    match m.waiting.flush(sink) {
        Ok(()) => note(m, stop),
        Err(_) => note(m, Stop::WriteFault),
    }
}

/// Stops by a trap of the instruction that is next.
pub fn trapped<W: Word, K: Sink>(m: &mut Running, trap: Trap, sink: &mut K) -> Stop
    requires ready { IsReady W.BITS m.old }
    ensures halts { HaltIs (K.written sink.old) (K.written sink.new) m.old.waiting (K.faults sink.old) (K.faults sink.new) (Stop.Trapped (trap_number trap) m.old.place) result }
    ensures stopped { m.new.stopped ≡ Some result }
    ensures kept { KeepsHeld m.old m.new }
    ensures ready { IsReady W.BITS m.new }
{
    let stop = Stop::Trapped {
        kind: number(trap),
        place: m.place,
    };
    halt::<W, K>(m, stop, sink)
}

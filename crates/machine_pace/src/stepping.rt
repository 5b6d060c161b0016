//! Steps, one or many.

ghost use Rattle.std.specs.Prelude.{None, Some, map, ◌≡◌, ◌≢◌};
ghost use Rattle.machine_step.specs.Steps.{HasCauses, IsCode, IsReady};
ghost use Rattle.machine_forms.specs.Forms.{moves_of};
ghost use Rattle.machine_step.specs.Runs.{AllRan, StaysStopped, StopIsNoted};

use crate::making::go;
use machine_forms::Prepared;
use machine_step::{Running, Stop};
use rtl_word::Word;
use vp_io::{Sink, Source};

/// Makes one instruction. A machine that has stopped answers why, and touches no device.
pub fn step<W: Word, S: Source, K: Sink>(
    code: &[Prepared],
    m: &mut Running,
    source: &mut S,
    sink: &mut K,
) -> Option<Stop>
    requires code { IsCode W.BITS (map moves_of code.now) }
    requires ready { IsReady W.BITS m.old }
    ensures stays { StaysStopped m.old m.new result }
    ensures same_source { m.old.stopped ≢ None → source.new ≡ source.old }
    ensures same_sink { m.old.stopped ≢ None → sink.new ≡ sink.old }
    ensures ran { m.old.stopped ≡ None → AllRan W.BITS (map moves_of code.now) m.old m.new (S.left source.old) (S.left source.new) (K.written sink.old) (K.written sink.new) (S.ends source.old) (S.ends source.new) 1 result }
    ensures stopped { m.old.stopped ≡ None → m.new.stopped ≡ result }
    ensures causes { m.old.stopped ≡ None → HasCauses (S.faults source.old) (S.faults source.new) (K.faults sink.old) (K.faults sink.new) result }
    ensures ready { IsReady W.BITS m.new }
{
    if let Some(stop) = m.stopped {
        return Some(stop);
    }
    go::<W, S, K>(code, m, source, sink)
}

/// Makes up to so many instructions of a machine that hasn't stopped.
fn run_on<W: Word, S: Source, K: Sink>(
    code: &[Prepared],
    m: &mut Running,
    steps: u64,
    source: &mut S,
    sink: &mut K,
) -> Stop
    requires code { IsCode W.BITS (map moves_of code.now) }
    requires ready { IsReady W.BITS m.old }
    requires goes { m.old.stopped ≡ None }
    ensures ran { AllRan W.BITS (map moves_of code.now) m.old m.new (S.left source.old) (S.left source.new) (K.written sink.old) (K.written sink.new) (S.ends source.old) (S.ends source.new) steps (Some result) }
    ensures stopped { StopIsNoted m.new result }
    ensures causes { HasCauses (S.faults source.old) (S.faults source.new) (K.faults sink.old) (K.faults sink.new) (Some result) }
    ensures ready { IsReady W.BITS m.new }
{
    for turn in 0..steps {
        match go::<W, S, K>(code, m, source, sink) {
            Some(stop) => return stop,
            None => {}
        }
    }
    match m.waiting.flush(sink) {
        Ok(()) => Stop::Spent,
        Err(_) => {
            m.stopped = Some(Stop::WriteFault);
            Stop::WriteFault
        }
    }
}

/// Makes up to so many instructions, and writes all that was printed. A machine that has stopped answers why, and touches no device.
pub fn run<W: Word, S: Source, K: Sink>(
    code: &[Prepared],
    m: &mut Running,
    steps: u64,
    source: &mut S,
    sink: &mut K,
) -> Stop
    requires code { IsCode W.BITS (map moves_of code.now) }
    requires ready { IsReady W.BITS m.old }
    ensures stays { StaysStopped m.old m.new (Some result) }
    ensures same_source { m.old.stopped ≢ None → source.new ≡ source.old }
    ensures same_sink { m.old.stopped ≢ None → sink.new ≡ sink.old }
    ensures ran { m.old.stopped ≡ None → AllRan W.BITS (map moves_of code.now) m.old m.new (S.left source.old) (S.left source.new) (K.written sink.old) (K.written sink.new) (S.ends source.old) (S.ends source.new) steps (Some result) }
    ensures stopped { m.old.stopped ≡ None → StopIsNoted m.new result }
    ensures causes { m.old.stopped ≡ None → HasCauses (S.faults source.old) (S.faults source.new) (K.faults sink.old) (K.faults sink.new) (Some result) }
    ensures ready { IsReady W.BITS m.new }
{
    if let Some(stop) = m.stopped {
        return stop;
    }
    run_on::<W, S, K>(code, m, steps, source, sink)
}

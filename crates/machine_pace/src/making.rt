//! One instruction.

ghost use Rattle.std.specs.Prelude.{All, None, Some, map, slice_get, ◌+◌, ◌≡◌};
ghost use Rattle.machine_turn.specs.Held.{IsMadeMove};
ghost use Rattle.machine_step.specs.Steps.{AloneIs, HasCauses, IsCode, IsReady, StepIs};
ghost use Rattle.machine_forms.specs.Forms.{IsFit, form_moves, moves_of};

use machine_forms::{Form, Prepared, make_form};
use machine_step::{Running, Stop, make_line, trapped};
use rtl_value::Trap;
use rtl_word::Word;
use vp_io::{Sink, Source};

/// Makes an instruction of a common form, which takes and prints no byte.
#[inline(always)]
fn make_common<W: Word, K: Sink>(form: &Form, m: &mut Running, sink: &mut K) -> Option<Stop>
    requires ready { IsReady W.BITS m.old }
    requires goes { m.old.stopped ≡ None }
    requires fit { IsFit W.BITS form.now }
    requires next { m.old.held.next ≡ m.old.place + 1 }
    ensures step { AloneIs W.BITS (Some (form_moves form.now)) m.old m.new (K.written sink.old) (K.written sink.new) (K.faults sink.old) (K.faults sink.new) result }
    ensures ready { IsReady W.BITS m.new }
    ensures causes { HasCauses 0 0 (K.faults sink.old) (K.faults sink.new) result }
{
    match make_form::<W>(form, &mut m.held) {
        Ok(place) => {
            m.place = place;
            None
        }
        Err(trap) => Some(trapped::<W, K>(m, trap, sink)),
    }
}

/// Makes an instruction.
#[inline(always)]
fn make_prepared<W: Word, S: Source, K: Sink>(
    line: &Prepared,
    m: &mut Running,
    source: &mut S,
    sink: &mut K,
) -> Option<Stop>
    requires ready { IsReady W.BITS m.old }
    requires goes { m.old.stopped ≡ None }
    requires made { All (IsMadeMove W.BITS) (moves_of line.now) }
    requires next { m.old.held.next ≡ m.old.place + 1 }
    ensures step { StepIs W.BITS (Some (moves_of line.now)) m.old m.new (S.left source.old) (S.left source.new) (K.written sink.old) (K.written sink.new) (S.ends source.old) (S.ends source.new) (K.faults sink.old) (K.faults sink.new) result }
    ensures ready { IsReady W.BITS m.new }
    ensures causes { HasCauses (S.faults source.old) (S.faults source.new) (K.faults sink.old) (K.faults sink.new) result }
{
    match line {
        Prepared::Common(form) => make_common::<W, K>(form, m, sink),
        Prepared::General(effects) => {
            make_line::<W, S, K>(effects.get().list.as_slice(), m, source, sink)
        }
    }
}

/// Makes the instruction that is next, or traps where there is none.
#[inline(always)]
pub fn go<W: Word, S: Source, K: Sink>(
    code: &[Prepared],
    m: &mut Running,
    source: &mut S,
    sink: &mut K,
) -> Option<Stop>
    requires code { IsCode W.BITS (map moves_of code.now) }
    requires ready { IsReady W.BITS m.old }
    requires goes { m.old.stopped ≡ None }
    ensures step { StepIs W.BITS (slice_get (map moves_of code.now) m.old.place) m.old m.new (S.left source.old) (S.left source.new) (K.written sink.old) (K.written sink.new) (S.ends source.old) (S.ends source.new) (K.faults sink.old) (K.faults sink.new) result }
    ensures ready { IsReady W.BITS m.new }
    ensures causes { HasCauses (S.faults source.old) (S.faults source.new) (K.faults sink.old) (K.faults sink.new) result }
{
    let place = m.place as usize;
    if code.len() <= place {
        return Some(trapped::<W, K>(m, Trap::Place, sink));
    }
    m.held.next = m.place + 1;
    let line = &code[place];
    make_prepared::<W, S, K>(line, m, source, sink)
}

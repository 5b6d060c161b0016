//! A machine with a program.

ghost use Rattle.std.specs.Prelude.{IfOk, None, Some, map, ◌≡◌, ◌≢◌};
ghost use Rattle.machine_run.specs.Machine.{Code};
ghost use Rattle.machine_forms.specs.Forms.{moves_of};
ghost use Rattle.machine_step.specs.Steps.{HasCauses};
ghost use Rattle.machine_step.specs.Runs.{AllRan, StaysStopped, StopIsNoted};
ghost use Rattle.rtl_machine.specs.Loading.{IsLoadable, IsLoaded, code_of};
ghost use Rattle.rtl_machine.specs.Whole.{RunsFrom};

use crate::loading::{code_in, memory_of};
use crate::parts::Parts;
use asm_program::Program;
use machine_devices::{Buffer, Reader};
use machine_pace::{run, step};
use machine_step::{Running, Stop};
use machine_turn::Held;
use md_check::Checked;
use rtl_tree::NoMemory;
use rtl_word::Word;
use std::alloc::Global;
use std::marker::{Model, PhantomData};
use vp_io::{Sink, Source};

/// A machine with a program. Contracts see its code and what changes as it runs.
#[derive(Drop)]
pub struct Machine<W: Word> {
    parts: Parts,
    bits: PhantomData<W>,
}

impl<W: Word> Model for Machine<W> {
    ghost use Rattle.rtl_machine.specs.declared.parts.Parts.{Parts};
    ghost use Rattle.rtl_machine.specs.contracts.parts.Parts as p;
    ghost use Rattle.rtl_machine.specs.Loading.{IsMachine};

    ghost Value = { Parts };

    ghost coded = { p.the_row.coded };

    ghost view = { λ m. m.parts };

    ghost invariant = { λ m. IsMachine W.BITS m.parts };
}

impl<W: Word> Machine<W> {
    /// A machine before the first instruction of a program: registers are 0, flags lost, and memory holds the data and 0 elsewhere.
    pub fn load(alloc: Global, m: &Checked<W>, p: &Program) -> Result<Machine<W>, NoMemory>
        requires loadable { IsLoadable m.now p.now }
        ensures { IfOk result (λ machine. IsLoaded W.BITS (code_of m.now p.now) machine) }
    {
        let memory = memory_of(alloc, m.layout(), p)?;
        let code = code_in::<W>(alloc, m, p)?;
        let held = Held {
            registers: [0; 64],
            flags: [None; 8],
            memory,
            next: 0,
        };
        let running = Running {
            held,
            place: 0,
            waiting: Buffer::new(),
            reader: Reader { ended: false },
            stopped: None,
        };
        Ok(Machine {
            parts: Parts { code, running },
            bits: PhantomData,
        })
    }

    /// Makes one instruction. What it prints may wait, up to 4,095 bytes, until a later call; a machine that stops has written all.
    pub fn step<S: Source, K: Sink>(&mut self, s: &mut S, k: &mut K) -> Option<Stop>
        ensures code { self.new.code ≡ self.old.code }
        ensures stays { StaysStopped self.old.running self.new.running result }
        ensures same_source { self.old.running.stopped ≢ None → s.new ≡ s.old }
        ensures same_sink { self.old.running.stopped ≢ None → k.new ≡ k.old }
        ensures ran { self.old.running.stopped ≡ None → AllRan W.BITS (map moves_of self.old.code.items) self.old.running self.new.running (S.left s.old) (S.left s.new) (K.written k.old) (K.written k.new) (S.ends s.old) (S.ends s.new) 1 result }
        ensures stopped { self.old.running.stopped ≡ None → self.new.running.stopped ≡ result }
        ensures causes { self.old.running.stopped ≡ None → HasCauses (S.faults s.old) (S.faults s.new) (K.faults k.old) (K.faults k.new) result }
    {
        step::<W, S, K>(&self.parts.code, &mut self.parts.running, s, k)
    }

    /// Makes up to so many instructions, and writes all that was printed. `Spent` is answered where all of them were made, none ended the
    /// run, and the last write didn't fail.
    pub fn run<S: Source, K: Sink>(&mut self, steps: u64, s: &mut S, k: &mut K) -> Stop
        ensures code { self.new.code ≡ self.old.code }
        ensures stays { StaysStopped self.old.running self.new.running (Some result) }
        ensures same_source { self.old.running.stopped ≢ None → s.new ≡ s.old }
        ensures same_sink { self.old.running.stopped ≢ None → k.new ≡ k.old }
        ensures ran { self.old.running.stopped ≡ None → AllRan W.BITS (map moves_of self.old.code.items) self.old.running self.new.running (S.left s.old) (S.left s.new) (K.written k.old) (K.written k.new) (S.ends s.old) (S.ends s.new) steps (Some result) }
        ensures stopped { self.old.running.stopped ≡ None → StopIsNoted self.new.running result }
        ensures causes { self.old.running.stopped ≡ None → HasCauses (S.faults s.old) (S.faults s.new) (K.faults k.old) (K.faults k.new) (Some result) }
        ensures from_start { (p : Code) → IsLoaded W.BITS p self.old → RunsFrom p steps (S.left s.old) (K.written k.old) (K.written k.new) (S.faults s.old) (S.faults s.new) (K.faults k.old) (K.faults k.new) result }
    {
        run::<W, S, K>(&self.parts.code, &mut self.parts.running, steps, s, k)
    }
}

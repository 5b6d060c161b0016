//! The run of a text's program on an accepted machine.

ghost use Rattle.std.specs.Prelude.{◌≡◌, IfOk, IfErr, OnOk, OnErr, Some};
ghost use Rattle.md_verdict.specs.Verdict.{description_in};
ghost use Rattle.asm_text.specs.Read.{IsFaultOf};
ghost use Rattle.machine_step.specs.Steps.{HasCauses};
ghost use Rattle.asm_run.specs.Runs.{IsAssemblyText, TextRunsTo, TakesSome};

use asm_text::{AsmFault, read_text};
use machine_step::Stop;
use md_check::Checked;
use md_verdict::Accepted;
use rtl_machine::Machine;
use rtl_machine::law::texts_are_loadable;
use rtl_tree::NoMemory;
use rtl_word::{W16, W32, Word};
use std::alloc::Global;
use vp_io::{Sink, Source};

fn run_on<W: Word, S: Source, K: Sink>(
    alloc: Global,
    m: &Checked<W>,
    text: &[u8],
    steps: u64,
    input: &mut S,
    output: &mut K,
) -> Result<Stop, AsmFault>
    ensures text { OnOk result (IsAssemblyText m.now text.now) }
    ensures ran { IfOk result (λ stop. TextRunsTo m.now text.now (S.left input.old) steps (K.written output.old) (K.written output.new) stop) }
    ensures taken { TakesSome (S.left input.old) (S.left input.new) }
    ensures causes { IfOk result (λ stop. HasCauses (S.faults input.old) (S.faults input.new) (K.faults output.old) (K.faults output.new) (Some stop)) }
    ensures refused { IfErr result (λ f. IsFaultOf m.now text.now f) }
    ensures unread { OnErr result (input.new ≡ input.old) }
    ensures untouched { OnErr result (output.new ≡ output.old) }
{
    texts_are_loadable();
    let _ = m.raw();
    let program = read_text::<W>(alloc, m, text)?;
    let mut machine = match Machine::load(alloc, m, &program) {
        Ok(machine) => machine,
        Err(NoMemory) => return Err(AsmFault::NoMemory),
    };
    Ok(machine.run(steps, input, output))
}

/// Runs the program of an assembly text on an accepted machine, for up to so many steps. A text that has no program touches neither the
/// input nor the output.
pub fn run_text<S: Source, K: Sink>(
    alloc: Global,
    machine: &Accepted,
    text: &[u8],
    steps: u64,
    input: &mut S,
    output: &mut K,
) -> Result<Stop, AsmFault>
    ensures text { OnOk result (IsAssemblyText (description_in machine.now) text.now) }
    ensures ran { IfOk result (λ stop. TextRunsTo (description_in machine.now) text.now (S.left input.old) steps (K.written output.old) (K.written output.new) stop) }
    ensures taken { TakesSome (S.left input.old) (S.left input.new) }
    ensures causes { IfOk result (λ stop. HasCauses (S.faults input.old) (S.faults input.new) (K.faults output.old) (K.faults output.new) (Some stop)) }
    ensures refused { IfErr result (λ f. IsFaultOf (description_in machine.now) text.now f) }
    ensures unread { OnErr result (input.new ≡ input.old) }
    ensures untouched { OnErr result (output.new ≡ output.old) }
{
    match machine {
        Accepted::Word16(m) => run_on::<W16, S, K>(alloc, m, text, steps, input, output),
        Accepted::Word32(m) => run_on::<W32, S, K>(alloc, m, text, steps, input, output),
    }
}

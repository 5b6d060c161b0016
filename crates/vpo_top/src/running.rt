//! `run`: an assembly text runs on a described machine.

ghost use Rattle.std.specs.Prelude.{◌≡◌, ℕ, IfOk, IfErr, Some};
ghost use Rattle.vpo_top.specs.Judgement.{IsRefusal, OfFiles};
ghost use Rattle.vpo_top.specs.Running.{IsRefusalOfRun, IsFoundIn, JudgesRun, outcome_of};
ghost use Rattle.vpo_top.specs.Outside.{files_of, input_of, sink_of};
ghost use Rattle.vpo_top.specs.Request.Asked.{Run};
ghost use Rattle.vpo_top.specs.Faults.{HasReadCause, HasFileCause, HasInputCause, HasWriteCause, CountsOnlyAsked};
ghost use Rattle.vpo_top.specs.Answer.{IsExecution};

use crate::fetching::fetch_assembly;
use crate::machines::machine_in;
use asm_run::run_text;
use asm_text::AsmFault;
use machine_step::Stop;
use md_verdict::Accepted;
use std::alloc::Global;
use vp_io::{Files, Outcome, Sink, Source, Which};

/// A machine, and the text that is to run on it.
#[derive(Drop)]
struct Found {
    machine: Accepted,
    text: Vec<u8>,
}

/// Runs the assembly text in one file on the machine that another describes, for up to so many steps.
pub fn run_to<F: Files, S: Source, K: Sink>(
    alloc: Global,
    files: &mut F,
    description: &str,
    assembly: &str,
    steps: u64,
    input: &mut S,
    output: &mut K,
) -> Outcome
    ensures answer { IsExecution steps description.now assembly.now (files_of F.files F.faults files.old) (input_of S.left S.faults S.ends input.old) (input_of S.left S.faults S.ends input.new) (sink_of K.written K.faults output.old) (sink_of K.written K.faults output.new) result }
    ensures read_cause { HasFileCause (Some (Run steps description.now assembly.now)) (F.files files.old) (F.faults files.old) (F.faults files.new) result }
    ensures input_cause { HasInputCause (S.faults input.old) (S.faults input.new) result }
    ensures write_cause { HasWriteCause (K.faults output.old) (K.faults output.new) result }
    ensures fetched { CountsOnlyAsked (Some (Run steps description.now assembly.now)) (F.faults files.old) (F.faults files.new) }
    ensures files_kept { F.files files.new ≡ F.files files.old }
    ensures untouched { IsRefusal result → output.new ≡ output.old }
{
    let found = match find(alloc, files, description, assembly) {
        Ok(found) => found,
        Err(outcome) => return outcome,
    };
    match run_text(alloc, &found.machine, &found.text, steps, input, output) {
        Ok(stop) => outcome_of(steps, stop),
        Err(AsmFault::NoMemory) => Outcome::NoMemory,
        Err(AsmFault::Bad(reason)) => Outcome::BadAssembly(reason),
    }
}

/// What the two files hold, or why nothing runs.
fn find<F: Files>(
    alloc: Global,
    files: &mut F,
    description: &str,
    assembly: &str,
) -> Result<Found, Outcome>
    ensures found { OfFiles (F.files files.old) description.now assembly.now (λ machine_text text. IfOk result (λ found. IsFoundIn machine_text text found)) }
    ensures judged { OfFiles (F.files files.old) description.now assembly.now (λ machine_text text. IfErr result (λ outcome. JudgesRun machine_text text outcome)) }
    ensures possible { IfErr result (λ outcome. IsRefusalOfRun outcome) }
    ensures cause { (steps : ℕ) → IfErr result (λ outcome. HasReadCause (Some (Run steps description.now assembly.now)) (F.files files.old) (F.faults files.old) (F.faults files.new) outcome) }
    ensures fetched { (steps : ℕ) → CountsOnlyAsked (Some (Run steps description.now assembly.now)) (F.faults files.old) (F.faults files.new) }
    ensures files_kept { F.files files.new ≡ F.files files.old }
{
    let machine = machine_in(alloc, files, description)?;
    let text = match fetch_assembly(alloc, files, assembly) {
        Ok(text) => text,
        Err(outcome) => return Err(outcome),
    };
    Ok(Found { machine, text })
}

fn outcome_of(steps: u64, stop: Stop) -> Outcome
    ensures { result ≡ outcome_of steps stop }
{
    match stop {
        Stop::Ended(status) => Outcome::Done(status),
        Stop::Trapped { kind, place } => Outcome::Trapped { kind, place },
        Stop::Spent => Outcome::Spent(steps),
        Stop::ReadFault => Outcome::ReadFault(Which::Input),
        Stop::WriteFault => Outcome::WriteFault,
    }
}

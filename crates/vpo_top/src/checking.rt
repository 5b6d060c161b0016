//! `check`: whether a description is accepted.

ghost use Rattle.std.specs.Prelude.{◌≡◌, ◌≤◌, length, IfOk, IfErr, IsErrOf, Some};
ghost use Rattle.vp_io.specs.Files.{OfFile, CountsOnly, RoseBy};
ghost use Rattle.vpo_top.specs.Judgement.{byte_limit, IsRefusal};
ghost use Rattle.vpo_top.specs.Commands.{IsVerdictOn, JudgesCheck, IsRefusalOfCheck};
ghost use Rattle.vpo_top.specs.Outside.{files_of, sink_of};
ghost use Rattle.vpo_top.specs.Request.Asked.{Check};
ghost use Rattle.vpo_top.specs.Faults.{HasReadCause, HasWriteCause, CountsOnlyAsked};
ghost use Rattle.vpo_top.specs.Answer.{IsCheck};

use crate::machines::machine_in;
use md_verdict::verdict_line;
use std::alloc::Global;
use vp_io::{Files, Outcome, Sink, Which, write_whole};

/// Writes of the description in a file that it is accepted.
pub fn check_to<F: Files, K: Sink>(
    alloc: Global,
    files: &mut F,
    description: &str,
    output: &mut K,
) -> Outcome
    ensures answer { IsCheck description.now (files_of F.files F.faults files.old) (sink_of K.written K.faults output.old) (sink_of K.written K.faults output.new) result }
    ensures read_cause { HasReadCause (Some (Check description.now)) (F.files files.old) (F.faults files.old) (F.faults files.new) result }
    ensures write_cause { HasWriteCause (K.faults output.old) (K.faults output.new) result }
    ensures fetched { CountsOnlyAsked (Some (Check description.now)) (F.faults files.old) (F.faults files.new) }
    ensures files_kept { F.files files.new ≡ F.files files.old }
    ensures untouched { IsRefusal result → output.new ≡ output.old }
{
    let line = match check(alloc, files, description) {
        Ok(line) => line,
        Err(outcome) => return outcome,
    };
    match write_whole(output, &line) {
        Ok(()) => Outcome::Done(0),
        Err(_) => Outcome::WriteFault,
    }
}

/// The line that is written of the description in a file, or why there is none.
fn check<F: Files>(alloc: Global, files: &mut F, description: &str) -> Result<Vec<u8>, Outcome>
    ensures short { OfFile (F.files files.old) description.now (λ text. IfOk result (λ line. length text ≤ byte_limit)) }
    ensures verdict { OfFile (F.files files.old) description.now (λ text. IfOk result (λ line. IsVerdictOn text line.items)) }
    ensures judged { OfFile (F.files files.old) description.now (λ text. IfErr result (λ outcome. JudgesCheck text outcome)) }
    ensures possible { IfErr result (λ outcome. IsRefusalOfCheck outcome) }
    ensures cause { IsErrOf result (Outcome.ReadFault Which.Description) → RoseBy (F.files files.old) description.now (F.faults files.old) (F.faults files.new) }
    ensures fetched { CountsOnly description.now (F.faults files.old) (F.faults files.new) }
    ensures files_kept { F.files files.new ≡ F.files files.old }
{
    let machine = machine_in(alloc, files, description)?;
    match verdict_line(alloc, machine.raw()) {
        Ok(line) => Ok(line),
        Err(_) => Err(Outcome::NoMemory),
    }
}

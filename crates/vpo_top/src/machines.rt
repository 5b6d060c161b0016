//! The machine that a file describes.

ghost use Rattle.std.specs.Prelude.{◌≡◌, ◌≤◌, length, IfOk, IfErr, IsErrOf};
ghost use Rattle.vp_io.specs.Files.{OfFile, CountsOnly, RoseBy};
ghost use Rattle.md_verdict.specs.Verdict.{IsAcceptedAs};
ghost use Rattle.vpo_top.specs.Judgement.{byte_limit};
ghost use Rattle.vpo_top.specs.Commands.{IsMachineOf, JudgesCheck, IsRefusalOfCheck};

use crate::fetching::fetch;
use md_fault::MdFault;
use md_verdict::{Accepted, accept};
use std::alloc::Global;
use vp_io::{Files, Outcome, Which};

/// The accepted description in a file, or why there is none.
pub fn machine_in<F: Files>(alloc: Global, files: &mut F, name: &str) -> Result<Accepted, Outcome>
    ensures found { OfFile (F.files files.old) name.now (λ text. IfOk result (λ machine. IsMachineOf text machine)) }
    ensures judged { OfFile (F.files files.old) name.now (λ text. IfErr result (λ outcome. JudgesCheck text outcome)) }
    ensures possible { IfErr result (λ outcome. IsRefusalOfCheck outcome) }
    ensures cause { IsErrOf result (Outcome.ReadFault Which.Description) → RoseBy (F.files files.old) name.now (F.faults files.old) (F.faults files.new) }
    ensures fetched { CountsOnly name.now (F.faults files.old) (F.faults files.new) }
    ensures files_kept { F.files files.new ≡ F.files files.old }
{
    let text = fetch(alloc, files, name, Which::Description)?;
    machine_of_text(alloc, &text)
}

fn machine_of_text(alloc: Global, text: &[u8]) -> Result<Accepted, Outcome>
    requires { length text.now ≤ byte_limit }
    ensures found { IfOk result (λ machine. IsMachineOf text.now machine) }
    ensures judged { IfErr result (λ outcome. JudgesCheck text.now outcome) }
    ensures possible { IfErr result (λ outcome. IsRefusalOfCheck outcome) }
    ensures no_fault { (which : Which) → IsErrOf result (Outcome.ReadFault which) → ⊥ }
{
    match accept(alloc, text) {
        Ok(accepted) => Ok(accepted),
        Err(MdFault::NoMemory) => Err(Outcome::NoMemory),
        Err(MdFault::Bad(reason)) => Err(Outcome::BadDescription(reason)),
    }
}

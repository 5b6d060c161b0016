//! `cc`: a source is compiled for a machine.

ghost use Rattle.std.specs.Prelude.{◌≡◌, IfOk, IfErr};
ghost use Rattle.vpo_top.specs.Judgement.{IsRefusal, OfFiles};
ghost use Rattle.vpo_top.specs.Headline.{IsTextOf};
ghost use Rattle.vpo_top.specs.Compiling.{IsRefusalOfCompilation, JudgesCompilation};
ghost use Rattle.vpo_top.specs.Outside.{files_of, sink_of};
ghost use Rattle.vpo_top.specs.Request.{compilation};
ghost use Rattle.vpo_top.specs.Faults.{HasReadCause, HasWriteCause, CountsOnlyAsked};
ghost use Rattle.vpo_top.specs.Answer.{IsCompilation};

use crate::fetching::fetch;
use crate::machines::machine_in;
use c_tree::CFault;
use cc_text::compile_text;
use std::alloc::Global;
use vp_io::{Files, Outcome, Sink, Which, write_whole};

/// Compiles the source in one file for the machine that another describes, and writes the text. With `plain` nothing is optimised.
pub fn compile_to<F: Files, K: Sink>(
    alloc: Global,
    files: &mut F,
    description: &str,
    source: &str,
    plain: bool,
    output: &mut K,
) -> Outcome
    ensures answer { IsCompilation description.now source.now (files_of F.files F.faults files.old) (sink_of K.written K.faults output.old) (sink_of K.written K.faults output.new) result }
    ensures read_cause { HasReadCause (compilation plain description.now source.now) (F.files files.old) (F.faults files.old) (F.faults files.new) result }
    ensures write_cause { HasWriteCause (K.faults output.old) (K.faults output.new) result }
    ensures fetched { CountsOnlyAsked (compilation plain description.now source.now) (F.faults files.old) (F.faults files.new) }
    ensures files_kept { F.files files.new ≡ F.files files.old }
    ensures untouched { IsRefusal result → output.new ≡ output.old }
{
    let text = match compile(alloc, files, description, source, plain) {
        Ok(text) => text,
        Err(outcome) => return outcome,
    };
    match write_whole(output, &text) {
        Ok(()) => Outcome::Done(0),
        Err(_) => Outcome::WriteFault,
    }
}

/// The text of a compilation, or why there is none.
fn compile<F: Files>(
    alloc: Global,
    files: &mut F,
    description: &str,
    source: &str,
    plain: bool,
) -> Result<Vec<u8>, Outcome>
    ensures compiled { OfFiles (F.files files.old) description.now source.now (λ machine_text source_text. IfOk result (λ text. IsTextOf machine_text source_text text.items)) }
    ensures judged { OfFiles (F.files files.old) description.now source.now (λ machine_text source_text. IfErr result (λ outcome. JudgesCompilation machine_text source_text outcome)) }
    ensures possible { IfErr result (λ outcome. IsRefusalOfCompilation outcome) }
    ensures cause { IfErr result (λ outcome. HasReadCause (compilation plain description.now source.now) (F.files files.old) (F.faults files.old) (F.faults files.new) outcome) }
    ensures fetched { CountsOnlyAsked (compilation plain description.now source.now) (F.faults files.old) (F.faults files.new) }
    ensures files_kept { F.files files.new ≡ F.files files.old }
{
    let machine = machine_in(alloc, files, description)?;
    let text = match fetch(alloc, files, source, Which::Text) {
        Ok(text) => text,
        Err(outcome) => return Err(outcome),
    };
    match compile_text(alloc, &machine, &text, plain) {
        Ok(text) => Ok(text),
        Err(CFault::NoMemory) => Err(Outcome::NoMemory),
        Err(CFault::Bad(reason)) => Err(Outcome::BadSource(reason)),
    }
}

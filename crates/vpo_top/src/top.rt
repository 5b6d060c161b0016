//! The top call: all that the program does.

ghost use Rattle.vpo_top.specs.Outside.{files_of, input_of, sink_of};
ghost use Rattle.vpo_top.specs.Request.{request_of, bytes_of_words};
ghost use Rattle.vpo_top.specs.Answer.{IsAnswered};

use crate::checking::check_to;
use crate::compiling::compile_to;
use crate::report::report;
use crate::request::{Request, WordsFault, read_words};
use crate::running::run_to;
use crate::showing::show_to;
use std::alloc::Global;
use vp_io::{Files, Outcome, Sink, Source};

/// Does what the words after the program's name ask for, and says on `errors` where it can't. The process is to end with the code of
/// the outcome.
pub fn vpo<F: Files, S: Source, K: Sink, E: Sink>(
    alloc: Global,
    words: &Vec<String>,
    files: &mut F,
    input: &mut S,
    output: &mut K,
    errors: &mut E,
) -> Outcome
    ensures { IsAnswered (request_of (bytes_of_words words.now.items))
        (record { files = files_of F.files F.faults files.old; input = input_of S.left S.faults S.ends input.old; output = sink_of K.written K.faults output.old; errors = sink_of E.written E.faults errors.old })
        (record { files = files_of F.files F.faults files.new; input = input_of S.left S.faults S.ends input.new; output = sink_of K.written K.faults output.new; errors = sink_of E.written E.faults errors.new })
        result }
{
    match read_words(alloc, words) {
        Ok(Request::Check { desc }) => {
            report(check_to(alloc, files, desc.as_str(), output), errors)
        }
        Ok(Request::Show { which }) => report(show_to(which, output), errors),
        Ok(
            Request::Cc {
                plain,
                desc,
                src,
                ..
            },
        ) => report(
            compile_to(alloc, files, desc.as_str(), src.as_str(), plain, output),
            errors,
        ),
        Ok(Request::Run { steps, desc, asm }) => report(
            run_to(
                alloc,
                files,
                desc.as_str(),
                asm.as_str(),
                steps,
                input,
                output,
            ),
            errors,
        ),
        Err(WordsFault::BadWords) => report(Outcome::BadWords, errors),
        Err(WordsFault::NoMemory) => report(Outcome::NoMemory, errors),
    }
}

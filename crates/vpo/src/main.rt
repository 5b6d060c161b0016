//! The program `vpo`: the words of its command line, and the files and the streams of the system
//! behind the traits of `vp_io`, for the one call that does all the rest, `vpo_top::vpo`.
//!
//! The objects of the system keep the promises of their traits: a fault is answered only where
//! the count of faults rose. Nothing is promised of the bytes that the system gives and takes.
#![tactic(auto)]

ghost use Rattle.std.specs.Prelude.{◌≡◌, ◌≢◌};
ghost use Rattle.std.specs.Process.{exit_status};
ghost use Rattle.std.specs.IoError.{error_kind};
ghost use Rattle.vp_io.specs.Codes.{exit_code};

mod file_system;
mod input;
mod output;
#[cfg(test)]
mod tests;

use crate::file_system::FileSystem;
use crate::input::InputStream;
use crate::output::OutputStream;
use std::env;
use std::io::{self, ErrorKind};
use std::process::ExitCode;
use vp_io::Outcome;
use vpo_top::report::report;
use vpo_top::vpo;

fn main(rt: HostRuntime) -> ExitCode {
    status_of(&run(rt))
}

fn status_of(outcome: &Outcome) -> ExitCode
    ensures { exit_status result ≡ exit_code outcome.now }
{
    ExitCode::from(outcome.code())
}

/// Does what the words ask for. Where they can't be had, that is told as the call would.
fn run(rt: HostRuntime) -> Outcome {
    let mut files = FileSystem::new(rt);
    let mut input = InputStream::new(rt.stdin());
    let mut output = OutputStream::new(rt.stdout());
    let mut errors = OutputStream::new(rt.stderr());
    match words(&rt) {
        Ok(words) => vpo(
            rt.alloc(),
            &words,
            &mut files,
            &mut input,
            &mut output,
            &mut errors,
        ),
        Err(error) => report(without_words(&error), &mut errors),
    }
}

/// The words after the program's name.
fn words(rt: &HostRuntime) -> io::Result<Vec<String>> {
    let mut words = Vec::new(rt.alloc());
    for word in env::args(rt)?.skip(1) {
        words.push(word)?;
    }
    Ok(words)
}

/// The outcome where the words can't be had. A word that isn't UTF-8 asks for nothing.
fn without_words(error: &io::Error) -> Outcome
    ensures memory { error_kind error.now ≡ ErrorKind.OutOfMemory → result ≡ Outcome.NoMemory }
    ensures others { error_kind error.now ≢ ErrorKind.OutOfMemory → result ≡ Outcome.BadWords }
{
    match error.kind() {
        ErrorKind::OutOfMemory => Outcome::NoMemory,
        _ => Outcome::BadWords,
    }
}

//! The files that the words name.

ghost use Rattle.std.specs.Prelude.{◌≡◌, ◌<◌, ◌≤◌, length, IfOk, IfErr, IsErrOf};
ghost use Rattle.vp_io.specs.Files.{OfFile, CountsOnly, RoseBy};
ghost use Rattle.vpo_top.specs.Judgement.{byte_limit, IsFetchRefusal};
ghost use Rattle.vpo_top.specs.Running.{assembly_limit};

use std::alloc::Global;
use vp_io::{FetchFault, Files, Outcome, Which, fetch_whole};

/// The most bytes of a description, and of a source.
const BYTE_LIMIT: u64 = 1_048_576;

/// The most bytes of an assembly text.
const ASSEMBLY_LIMIT: u64 = 67_108_864;

/// The bytes of a description or a source, which is told as `which` in a refusal.
pub fn fetch<F: Files>(
    alloc: Global,
    files: &mut F,
    name: &str,
    which: Which,
) -> Result<Vec<u8>, Outcome>
    ensures bytes { OfFile (F.files files.old) name.now (λ file. IfOk result (λ text. text.items ≡ file)) }
    ensures short { IfOk result (λ text. length text.items ≤ byte_limit) }
    ensures too_long { IsErrOf result (Outcome.FileTooLong which) → OfFile (F.files files.old) name.now (λ file. byte_limit < length file) }
    ensures cause { IsErrOf result (Outcome.ReadFault which) → RoseBy (F.files files.old) name.now (F.faults files.old) (F.faults files.new) }
    ensures possible { IfErr result (λ outcome. IsFetchRefusal which outcome) }
    ensures fetched { CountsOnly name.now (F.faults files.old) (F.faults files.new) }
    ensures files_kept { F.files files.new ≡ F.files files.old }
{
    fetch_within(alloc, files, name, which, BYTE_LIMIT)
}

/// The bytes of an assembly text.
pub fn fetch_assembly<F: Files>(
    alloc: Global,
    files: &mut F,
    name: &str,
) -> Result<Vec<u8>, Outcome>
    ensures bytes { OfFile (F.files files.old) name.now (λ file. IfOk result (λ text. text.items ≡ file)) }
    ensures short { IfOk result (λ text. length text.items ≤ assembly_limit) }
    ensures too_long { IsErrOf result (Outcome.FileTooLong Which.Assembly) → OfFile (F.files files.old) name.now (λ file. assembly_limit < length file) }
    ensures cause { IsErrOf result (Outcome.ReadFault Which.Assembly) → RoseBy (F.files files.old) name.now (F.faults files.old) (F.faults files.new) }
    ensures possible { IfErr result (λ outcome. IsFetchRefusal Which.Assembly outcome) }
    ensures fetched { CountsOnly name.now (F.faults files.old) (F.faults files.new) }
    ensures files_kept { F.files files.new ≡ F.files files.old }
{
    fetch_within(alloc, files, name, Which::Assembly, ASSEMBLY_LIMIT)
}

fn fetch_within<F: Files>(
    alloc: Global,
    files: &mut F,
    name: &str,
    which: Which,
    limit: u64,
) -> Result<Vec<u8>, Outcome>
    ensures bytes { OfFile (F.files files.old) name.now (λ file. IfOk result (λ text. text.items ≡ file)) }
    ensures short { IfOk result (λ text. length text.items ≤ limit) }
    ensures too_long { IsErrOf result (Outcome.FileTooLong which) → OfFile (F.files files.old) name.now (λ file. limit < length file) }
    ensures cause { IsErrOf result (Outcome.ReadFault which) → RoseBy (F.files files.old) name.now (F.faults files.old) (F.faults files.new) }
    ensures possible { IfErr result (λ outcome. IsFetchRefusal which outcome) }
    ensures fetched { CountsOnly name.now (F.faults files.old) (F.faults files.new) }
    ensures files_kept { F.files files.new ≡ F.files files.old }
{
    match fetch_whole(alloc, files, name, limit) {
        Ok(text) => Ok(text),
        Err(FetchFault::NoMemory) => Err(Outcome::NoMemory),
        Err(FetchFault::Failed) => Err(Outcome::ReadFault(which)),
        Err(FetchFault::TooLong) => Err(Outcome::FileTooLong(which)),
    }
}

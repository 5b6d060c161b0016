//! The files of the system.

ghost use Rattle.std.specs.Prelude.{◌≡◌, ◌<◌, ◌^◌, None};
ghost use Rattle.std.specs.Io.{ReadsAtMost};

use std::fs::{self, File};
use std::io::{self, Read, Seek, SeekFrom};
use vp_io::{Failed, Files};

/// The files that a runtime reaches, each under its path, with how often a fetch was made and how
/// often one has failed. Each fetch opens its file anew.
#[derive(Drop)]
pub struct FileSystem<R> {
    runtime: R,
    faults: u64,
    calls: u64,
    ghost faults_fit: { faults < 2 ^ 64 },
    ghost calls_fit: { calls < 2 ^ 64 },
}

impl<R> FileSystem<R> {
    ghost use Rattle.vpo.specs.Adapters.{file_faults, fetches};

    pub fn new(runtime: R) -> FileSystem<R>
        ensures faults { (file_faults result).total ≡ 0 }
        ensures calls { fetches result ≡ 0 }
    {
        FileSystem {
            runtime,
            faults: 0,
            calls: 0,
        }
    }
}

impl<R: fs::Files> Files for FileSystem<R> {
    ghost use Rattle.vpo.specs.Adapters.{file_faults, fetches};
    ghost use Rattle.std.proofs.Common.{lit<};

    ghost files = { λ _. None };

    ghost faults = { file_faults };

    ghost calls = { fetches };

    ghost counts_fit = { λ files. record { total = files.faults_fit; of = λ _. lit< tt; calls_fit = files.calls_fit } };

    fn fetch(&mut self, name: &str, at: u64, into: &mut [u8]) -> Result<usize, Failed> {
        self.calls = self.calls.saturating_add(1);
        let Ok(count) = read_at(&self.runtime, name, at, into) else {
            self.faults = self.faults.saturating_add(1);
            return Err(Failed);
        };
        Ok(count)
    }
}

/// Reads bytes of a file from the place `at` on.
fn read_at<R: fs::Files>(runtime: &R, name: &str, at: u64, into: &mut [u8]) -> io::Result<usize>
    ensures { ReadsAtMost result into.new }
{
    let mut file = File::open(runtime, name)?;
    file.seek(SeekFrom::Start(at))?;
    file.read(into)
}

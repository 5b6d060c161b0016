//! Files in memory.

ghost use Rattle.std.specs.Prelude.{◌≡◌, ◌<◌, ◌^◌, Some};

use crate::answers::Failed;
use crate::failing::FailingCalls;
use crate::fetching::Files;
use crate::find::{count_fault, file_piece, place_of};

/// A file with its name, whether a fetch of it finds nothing, and how often a fetch of it has failed.
#[derive(Drop)]
pub struct MemFile {
    pub name: Vec<u8>,
    pub bytes: Vec<u8>,
    pub absent: bool,
    pub faults: u64,
    pub ghost faults_fit: { faults < 2 ^ 64 },
}

/// Files that are given in pieces, and fail at chosen calls and where they are absent.
/// A name without an entry is an empty file, whose fetch never fails.
/// Where entries share a name, the first one is the file.
#[derive(Drop)]
pub struct MemFiles {
    entries: Vec<MemFile>,
    piece: usize,
    failing: FailingCalls,
    calls: u64,
    ghost piece_is_some: { 0 < piece },
    ghost calls_fit: { calls < 2 ^ 64 },
}

impl MemFiles {
    ghost use Rattle.vp_io.specs.MemoryFiles.{bytes_of, faults_of, told_files, file_faults, fetches};

    /// A fetch gives at most `piece` bytes. The fetches with the numbers `failing` fail, where
    /// those of names that have an entry are counted, from 0.
    pub fn new(files: Vec<MemFile>, piece: usize, failing: Vec<u64>) -> MemFiles
        requires { 0 < piece }
        ensures files { told_files result ≡ bytes_of files.items }
        ensures faults { (file_faults result).total ≡ 0 }
        ensures faults_of { (file_faults result).of ≡ faults_of files.items }
        ensures calls { fetches result ≡ 0 }
    {
        MemFiles {
            entries: files,
            piece,
            failing: FailingCalls::new(failing),
            calls: 0,
        }
    }
}

impl Files for MemFiles {
    ghost use Rattle.vp_io.specs.MemoryFiles.{told_files, file_faults, fetches};
    ghost use Rattle.vp_io.specs.CountsFit.{file_counts_fit};

    ghost files = { λ files. Some (told_files files) };

    ghost faults = { file_faults };

    ghost calls = { fetches };

    ghost counts_fit = { file_counts_fit };

    fn fetch(&mut self, name: &str, at: u64, into: &mut [u8]) -> Result<usize, Failed> {
        self.calls = self.calls.saturating_add(1);
        let Some(place) = place_of(&self.entries, name.as_bytes()) else {
            return Ok(0);
        };
        if self.failing.is_next() || self.entries[place].absent {
            count_fault(&mut self.entries, place);
            return Err(self.failing.fault());
        }
        Ok(file_piece(&self.entries[place].bytes, at, self.piece, into))
    }
}

/// Files that never fail, whether they are absent or not. A name without an entry is an empty file.
/// Where entries share a name, the first one is the file.
#[derive(Drop)]
pub struct SafeFiles {
    entries: Vec<MemFile>,
    calls: u64,
    ghost calls_fit: { calls < 2 ^ 64 },
}

impl SafeFiles {
    ghost use Rattle.vp_io.specs.MemoryFiles.{bytes_of, safe_files, safe_fetches};

    pub fn new(files: Vec<MemFile>) -> SafeFiles
        ensures files { safe_files result ≡ bytes_of files.items }
        ensures calls { safe_fetches result ≡ 0 }
    {
        SafeFiles {
            entries: files,
            calls: 0,
        }
    }
}

impl Files for SafeFiles {
    ghost use Rattle.vp_io.specs.MemoryFiles.{safe_files, safe_fetches, no_faults};
    ghost use Rattle.vp_io.specs.CountsFit.{safe_counts_fit};

    ghost files = { λ files. Some (safe_files files) };

    ghost faults = { λ _. no_faults };

    ghost calls = { safe_fetches };

    ghost counts_fit = { safe_counts_fit };

    fn fetch(&mut self, name: &str, at: u64, into: &mut [u8]) -> Result<usize, Failed> {
        self.calls = self.calls.saturating_add(1);
        let Some(place) = place_of(&self.entries, name.as_bytes()) else {
            return Ok(0);
        };
        Ok(file_piece(&self.entries[place].bytes, at, into.len(), into))
    }
}

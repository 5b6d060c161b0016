//! Files that are fetched by name.

ghost use Rattle.std.specs.Prelude.{◌≡◌, ℕ, List, ◌+◌, ◌<◌, ◌≤◌, length, vec_len, IfOk, OnErr, IsErrOf};
ghost use Rattle.std.specs.Io.{ReadsAtMost};
ghost use Rattle.vp_io.specs.Counts.{next_count};
ghost use Rattle.vp_io.specs.Files.{Told, OfFile, FetchGives, FaultCounts, CountsFit, CountsOnly, RoseBy};

use crate::answers::Failed;
use std::alloc::{AllocError, Global};
use thiserror::Error;

/// Files, each under its name.
pub trait Files {
    /// The bytes under each name, where the object tells them.
    ghost files: { Self → Told };

    /// How often a fetch has failed, in all and by name.
    ghost faults: { Self → FaultCounts };

    /// How often a fetch was made.
    ghost calls: { Self → ℕ };

    /// Gives bytes of the file under `name`, from the place `at` on. `Ok(0)` is its end.
    /// A missing file is a fault.
    fn fetch(&mut self, name: &str, at: u64, into: &mut [u8]) -> Result<usize, Failed>
        requires room { 0 < length into.old }
        ensures bound { ReadsAtMost result into.new }
        ensures bytes { FetchGives (files self.old) name.now at result into.new }
        ensures kept { files self.new ≡ files self.old }
        ensures cause { OnErr result (RoseBy (files self.old) name.now (faults self.old) (faults self.new)) }
        ensures counts { CountsOnly name.now (faults self.old) (faults self.new) }
        ensures call { calls self.new ≡ next_count (calls self.old) };

    /// Each count has 64 bits.
    ghost counts_fit: { (files : Self) → CountsFit (faults files) (calls files) };
}

/// Why a file was not fetched.
#[derive(Clone, Copy, Debug, PartialEq, Eq, Error)]
pub enum FetchFault {
    #[error("no memory")]
    NoMemory,
    #[error("the file could not be read")]
    Failed,
    #[error("the file is too long")]
    TooLong,
}

impl From<Failed> for FetchFault {
    ghost use Rattle.vp_io.specs.declared.fetching.FetchFault.TheVariants.{Failed as FetchFailed};

    ghost from_gives = { λ _ fault. fault ≡ FetchFailed };

    fn from(_fault: Failed) -> FetchFault {
        FetchFault::Failed
    }
}

impl From<AllocError> for FetchFault {
    ghost use Rattle.vp_io.specs.declared.fetching.FetchFault.TheVariants.{NoMemory as FetchNoMemory};

    ghost from_gives = { λ _ fault. fault ≡ FetchNoMemory };

    fn from(_fault: AllocError) -> FetchFault {
        FetchFault::NoMemory
    }
}

/// The bytes that are fetched in one call.
const PIECE: usize = 4096;

/// The whole file under `name`, where it has at most `limit` bytes.
pub fn fetch_whole<F: Files>(
    alloc: Global,
    files: &mut F,
    name: &str,
    limit: u64,
) -> Result<Vec<u8>, FetchFault>
    ensures whole { OfFile (F.files files.old) name.now (λ file. IfOk result (λ v. v.items ≡ file)) }
    ensures within { IfOk result (λ v. vec_len v ≤ limit) }
    ensures too_long { IsErrOf result FetchFault.TooLong →
        OfFile (F.files files.old) name.now (λ file. limit < length file) }
    ensures cause { IsErrOf result FetchFault.Failed →
        RoseBy (F.files files.old) name.now (F.faults files.old) (F.faults files.new) }
    ensures counts { CountsOnly name.now (F.faults files.old) (F.faults files.new) }
    ensures kept { F.files files.new ≡ F.files files.old }
    ensures calls { F.calls files.new ≤ F.calls files.old + limit + 2 }
{
    let mut text = Vec::new(alloc);
    let mut piece = [0; PIECE];
    loop {
        let count = files.fetch(name, text.len() as u64, &mut piece)?;
        if count == 0 {
            return Ok(text);
        }
        if count as u64 > limit - text.len() as u64 {
            return Err(FetchFault::TooLong);
        }
        text.extend_from_slice(&piece[..count])?;
    }
}

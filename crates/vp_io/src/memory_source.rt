//! Sources in memory.

ghost use Rattle.std.specs.Prelude.{◌≡◌, ◌≤◌, ◌<◌, ◌^◌, vec_len, Some};
ghost use Rattle.std.proofs.Common.{lit<};

use crate::answers::Failed;
use crate::failing::FailingCalls;
use crate::piece::copy_piece;
use crate::reading::Source;

/// A source that gives bytes in pieces and fails at chosen calls.
#[derive(Drop)]
pub struct MemSource {
    bytes: Vec<u8>,
    taken: usize,
    piece: usize,
    failing: FailingCalls,
    ends: u64,
    ghost taken_fits: { taken ≤ vec_len bytes },
    ghost ends_fit: { ends < 2 ^ 64 },
    ghost piece_is_some: { 0 < piece },
}

impl MemSource {
    ghost use Rattle.vp_io.specs.MemorySource.{left_of, source_faults, source_ends};

    /// A call gives at most `piece` bytes; the calls with the numbers `failing`, counted from 0, fail.
    pub fn new(bytes: Vec<u8>, piece: usize, failing: Vec<u64>) -> MemSource
        requires { 0 < piece }
        ensures left { left_of result ≡ bytes.items }
        ensures faults { source_faults result ≡ 0 }
        ensures ends { source_ends result ≡ 0 }
    {
        MemSource {
            bytes,
            taken: 0,
            piece,
            failing: FailingCalls::new(failing),
            ends: 0,
        }
    }
}

impl Source for MemSource {
    ghost use Rattle.vp_io.specs.MemorySource.{left_of, source_faults, source_ends};

    ghost left = { λ source. Some (left_of source) };

    ghost faults = { source_faults };

    ghost ends = { source_ends };

    ghost counts_fit = { λ source. (source.failing.faults_fit, source.ends_fit) };

    fn read(&mut self, into: &mut [u8]) -> Result<usize, Failed> {
        if self.failing.is_next() {
            return Err(self.failing.fault());
        }
        let count = copy_piece(&self.bytes, self.taken, self.piece, into);
        if count == 0 {
            self.ends = self.ends.saturating_add(1);
        }
        self.taken += count;
        Ok(count)
    }
}

/// A source that never fails.
#[derive(Drop)]
pub struct SafeSource {
    bytes: Vec<u8>,
    taken: usize,
    ends: u64,
    ghost taken_fits: { taken ≤ vec_len bytes },
    ghost ends_fit: { ends < 2 ^ 64 },
}

impl SafeSource {
    ghost use Rattle.vp_io.specs.MemorySource.{safe_left_of, safe_ends};

    pub fn new(bytes: Vec<u8>) -> SafeSource
        ensures left { safe_left_of result ≡ bytes.items }
        ensures ends { safe_ends result ≡ 0 }
    {
        SafeSource {
            bytes,
            taken: 0,
            ends: 0,
        }
    }
}

impl Source for SafeSource {
    ghost use Rattle.vp_io.specs.MemorySource.{safe_left_of, safe_ends};

    ghost left = { λ source. Some (safe_left_of source) };

    ghost faults = { λ _. 0 };

    ghost ends = { safe_ends };

    ghost counts_fit = { λ source. (lit< tt, source.ends_fit) };

    fn read(&mut self, into: &mut [u8]) -> Result<usize, Failed> {
        let count = copy_piece(&self.bytes, self.taken, into.len(), into);
        if count == 0 {
            self.ends = self.ends.saturating_add(1);
        }
        self.taken += count;
        Ok(count)
    }
}

//! Sinks in memory.

ghost use Rattle.std.specs.Prelude.{◌≡◌, ◌≤◌, ◌<◌, [], vec_len, Some, None};
ghost use Rattle.std.proofs.Common.{lit<};

use crate::answers::Failed;
use crate::failing::FailingCalls;
use crate::writing::Sink;

/// A sink that takes bytes in pieces into the room that it was given, and fails at chosen calls
/// and where no room is left.
#[derive(Drop)]
pub struct MemSink {
    room: Vec<u8>,
    used: usize,
    piece: usize,
    failing: FailingCalls,
    ghost used_fits: { used ≤ vec_len room },
    ghost piece_is_some: { 0 < piece },
}

impl MemSink {
    ghost use Rattle.vp_io.specs.MemorySink.{written_to, sink_faults};

    /// What is written takes the place of the bytes of `room`. A call takes at most `piece` bytes;
    /// the calls with the numbers `failing`, counted from 0, fail.
    pub fn new(room: Vec<u8>, piece: usize, failing: Vec<u64>) -> MemSink
        requires { 0 < piece }
        ensures empty { written_to result ≡ [] }
        ensures faults { sink_faults result ≡ 0 }
    {
        MemSink {
            room,
            used: 0,
            piece,
            failing: FailingCalls::new(failing),
        }
    }

    /// What was written.
    pub fn bytes(&self) -> &[u8]
        ensures { result.now ≡ written_to self.now }
    {
        &self.room[..self.used]
    }
}

impl Sink for MemSink {
    ghost use Rattle.vp_io.specs.MemorySink.{written_to, sink_faults};

    ghost written = { λ sink. Some (written_to sink) };

    ghost faults = { sink_faults };

    ghost counts_fit = { λ sink. sink.failing.faults_fit };

    fn write(&mut self, from: &[u8]) -> Result<usize, Failed> {
        let room = self.room.len() - self.used;
        let count = from.len().min(self.piece).min(room);
        if self.failing.is_next() || (count == 0 && !from.is_empty()) {
            return Err(self.failing.fault());
        }
        self.room[self.used..self.used + count].copy_from_slice(&from[..count]);
        self.used += count;
        Ok(count)
    }
}

/// A sink that drops what it is given and never fails.
#[derive(Clone, Copy, Debug, PartialEq, Eq)]
pub struct SafeSink;

impl Sink for SafeSink {
    ghost written = { λ _. None };

    ghost faults = { λ _. 0 };

    ghost counts_fit = { λ _. lit< tt };

    fn write(&mut self, from: &[u8]) -> Result<usize, Failed> {
        Ok(from.len())
    }
}

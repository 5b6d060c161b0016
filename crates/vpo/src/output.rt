//! A stream of the system as a sink.

ghost use Rattle.std.specs.Prelude.{◌≡◌, ◌<◌, ◌^◌};

use std::io::Write;
use vp_io::{Failed, Sink};

/// A stream that is written to, with how often a write has failed. A write of some bytes that
/// takes none of them has failed.
#[derive(Drop)]
pub struct OutputStream<W> {
    stream: W,
    faults: u64,
    ghost faults_fit: { faults < 2 ^ 64 },
}

impl<W> OutputStream<W> {
    ghost use Rattle.vpo.specs.Adapters.{output_faults};

    pub fn new(stream: W) -> OutputStream<W>
        ensures { output_faults result ≡ 0 }
    {
        OutputStream { stream, faults: 0 }
    }
}

impl<W: Write> Sink for OutputStream<W> {
    ghost use Rattle.vpo.specs.Adapters.{output_faults};

    ghost written = { λ output. W.contents output.stream };

    ghost faults = { output_faults };

    ghost counts_fit = { λ output. output.faults_fit };

    fn write(&mut self, from: &[u8]) -> Result<usize, Failed> {
        match self.stream.write(from) {
            Ok(count) if count > 0 || from.is_empty() => Ok(count),
            _ => {
                self.faults = self.faults.saturating_add(1);
                Err(Failed)
            }
        }
    }
}

//! A stream of the system as a source.

ghost use Rattle.std.specs.Prelude.{◌≡◌, ◌<◌, ◌^◌};

use std::io::Read;
use vp_io::{Failed, Source};

/// A stream that is read, with how often a read has failed and how often one has met the end.
/// A read that a signal interrupts is restarted by the system, so each error counts as a fault.
#[derive(Drop)]
pub struct InputStream<R> {
    stream: R,
    faults: u64,
    ends: u64,
    ghost faults_fit: { faults < 2 ^ 64 },
    ghost ends_fit: { ends < 2 ^ 64 },
}

impl<R> InputStream<R> {
    ghost use Rattle.vpo.specs.Adapters.{input_faults, input_ends};

    pub fn new(stream: R) -> InputStream<R>
        ensures faults { input_faults result ≡ 0 }
        ensures ends { input_ends result ≡ 0 }
    {
        InputStream {
            stream,
            faults: 0,
            ends: 0,
        }
    }
}

impl<R: Read> Source for InputStream<R> {
    ghost use Rattle.vpo.specs.Adapters.{input_faults, input_ends};

    ghost left = { λ input. R.remaining input.stream };

    ghost faults = { input_faults };

    ghost ends = { input_ends };

    ghost counts_fit = { λ input. (input.faults_fit, input.ends_fit) };

    fn read(&mut self, into: &mut [u8]) -> Result<usize, Failed> {
        let Ok(count) = self.stream.read(into) else {
            self.faults = self.faults.saturating_add(1);
            return Err(Failed);
        };
        if count == 0 {
            self.ends = self.ends.saturating_add(1);
        }
        Ok(count)
    }
}

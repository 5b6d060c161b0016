//! Sinks for bytes.

ghost use Rattle.std.specs.Prelude.{ℕ, List, Option, ◌^◌, ◌<◌, length, IfOk, OnOk, OnErr};
ghost use Rattle.std.specs.Io.{WritesAtMost};
ghost use Rattle.std.specs.Io.KnownBytes.{Appends, WriteAppends};
ghost use Rattle.vp_io.specs.Counts.{HasCause};
ghost use Rattle.vp_io.specs.Contents.{AppendsPart};

use crate::answers::Failed;

/// Where bytes are written to, one after the other.
pub trait Sink {
    /// What was written, where the sink tells it.
    ghost written: { Self → Option (List ℕ) };

    /// How often a write has failed.
    ghost faults: { Self → ℕ };

    /// Writes the first bytes of `from`, at least one if there is one. A failed write writes nothing.
    fn write(&mut self, from: &[u8]) -> Result<usize, Failed>
        ensures bound { WritesAtMost result from.now }
        ensures some { 0 < length from.now → IfOk result (λ n. 0 < n) }
        ensures bytes { WriteAppends (written self.old) (written self.new) result from.now }
        ensures cause { HasCause (faults self.old) (faults self.new) result };

    /// The count has 64 bits.
    ghost counts_fit: { (sink : Self) → faults sink < 2 ^ 64 };
}

/// Writes all of `from`. Where that fails, some first bytes of it were written.
pub fn write_whole<K: Sink>(sink: &mut K, from: &[u8]) -> Result<(), Failed>
    ensures all { OnOk result (Appends (K.written sink.old) (K.written sink.new) from.now) }
    ensures part { OnErr result (AppendsPart (K.written sink.old) (K.written sink.new) from.now) }
    ensures cause { HasCause (K.faults sink.old) (K.faults sink.new) result }
{
    let mut at = 0;
    while at < from.len() {
        at += sink.write(&from[at..])?;
    }
    Ok(())
}

//! Sources of bytes.

ghost use Rattle.std.specs.Prelude.{ℕ, List, Option, ◌^◌, ◌<◌, length};
ghost use Rattle.std.specs.Io.{ReadsAtMost};
ghost use Rattle.std.specs.Io.KnownBytes.{ReadConsumes};
ghost use Rattle.vp_io.specs.Counts.{HasCause, CountsEnds};

use crate::answers::Failed;

/// Bytes that come one after the other.
pub trait Source {
    /// The bytes that are left, where the source tells them.
    ghost left: { Self → Option (List ℕ) };

    /// How often a read has failed.
    ghost faults: { Self → ℕ };

    /// How often a read has met the end.
    ghost ends: { Self → ℕ };

    /// Takes the next bytes of what is left. `Ok(0)` is the end, and a failed read takes nothing.
    fn read(&mut self, into: &mut [u8]) -> Result<usize, Failed>
        requires room { 0 < length into.old }
        ensures bound { ReadsAtMost result into.new }
        ensures bytes { ReadConsumes (left self.old) (left self.new) result into.new }
        ensures end { CountsEnds (ends self.old) (ends self.new) result }
        ensures cause { HasCause (faults self.old) (faults self.new) result };

    /// Each count has 64 bits.
    ghost counts_fit: { (source : Self) → (faults source < 2 ^ 64) × (ends source < 2 ^ 64) };
}

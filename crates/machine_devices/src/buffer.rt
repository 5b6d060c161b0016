//! Output that waits to be written.

ghost use Rattle.std.specs.Prelude.{IsTrue, OnErr, OnOk, length, [], ◌++◌, ◌<◌, ◌∷◌, ◌≡◌, ◌↔◌};
ghost use Rattle.std.specs.Io.KnownBytes.{Appends};
ghost use Rattle.vp_io.specs.Contents.{AppendsPart};
ghost use Rattle.vp_io.specs.Counts.{HasCause};
ghost use Rattle.machine_devices.specs.Devices.{Prints};

use std::marker::Model;
use vp_io::{Failed, Sink, write_whole};

/// Up to 4,096 bytes. Contracts see the list of them.
#[derive(Debug, Drop)]
pub struct Buffer {
    bytes: [u8; 4096],
    used: usize,
}

impl Model for Buffer {
    ghost use Rattle.std.specs.Prelude.{List, ℕ, take, ◌≤◌};

    ghost Value = { List ℕ };

    ghost view = { λ b. take b.used b.bytes };

    ghost invariant = { λ b. b.used ≤ 4096 };
}

impl Buffer {
    /// A buffer in which nothing waits.
    pub fn new() -> Buffer
        ensures { result ≡ [] }
    {
        Buffer {
            bytes: [0; 4096],
            used: 0,
        }
    }

    /// Writes all that waits; then nothing waits, even where the write fails.
    pub fn flush<K: Sink>(&mut self, sink: &mut K) -> Result<(), Failed>
        ensures all { OnOk result (Appends (K.written sink.old) (K.written sink.new) self.old) }
        ensures part { OnErr result (AppendsPart (K.written sink.old) (K.written sink.new) self.old) }
        ensures none_waits { self.new ≡ [] }
        ensures cause { HasCause (K.faults sink.old) (K.faults sink.new) result }
    {
        let written = write_whole(sink, &self.bytes[..self.used]);
        self.used = 0;
        written
    }

    fn add(&mut self, byte: u8)
        requires { length self.old < 4096 }
        ensures { self.new ≡ self.old ++ (byte ∷ []) }
    {
        self.bytes[self.used] = byte;
        self.used += 1;
    }

    fn is_full(&self) -> bool
        ensures { IsTrue result ↔ (length self.now ≡ 4096) }
    {
        self.used == 4096
    }

    /// Takes one byte more, and writes all when 4,096 wait.
    pub fn put<K: Sink>(&mut self, byte: u8, sink: &mut K) -> Result<(), Failed>
        requires room { length self.old < 4096 }
        ensures prints { OnOk result (Prints (K.written sink.old) self.old (K.written sink.new) self.new (byte ∷ [])) }
        ensures room { length self.new < 4096 }
        ensures part { OnErr result (AppendsPart (K.written sink.old) (K.written sink.new) (self.old ++ (byte ∷ []))) }
        ensures cause { HasCause (K.faults sink.old) (K.faults sink.new) result }
    {
        self.add(byte);
        if self.is_full() {
            return self.flush(sink);
        }
        Ok(())
    }
}

//! A line of assembly in memory of its own.

ghost use Rattle.std.specs.Prelude.{◌≡◌, ◌+◌, ◌≤◌, [], ◌∷◌, ◌++◌, length};

use arrayvec::ArrayVec;
use std::marker::Model;

/// The most bytes of a line.
const ROOM: usize = 640;

/// A line of at most 640 bytes, without the line feed. Contracts see its bytes.
#[derive(Drop)]
pub struct LineBuf {
    bytes: ArrayVec<u8, ROOM>,
}

impl Model for LineBuf {
    ghost use Rattle.std.specs.Prelude.{List, ℕ};

    ghost Value = { List ℕ };

    ghost view = { λ l. l.bytes.items };
}

impl LineBuf {
    /// An empty line.
    pub fn new() -> LineBuf
        ensures { result ≡ [] }
    {
        LineBuf {
            bytes: ArrayVec::new(),
        }
    }

    pub fn bytes(&self) -> &[u8]
        ensures bytes { result.now ≡ self.now }
        ensures room { length result.now ≤ 640 }
    {
        self.bytes.as_slice()
    }

    pub(crate) fn clear(&mut self)
        ensures { self.new ≡ [] }
    {
        self.bytes.clear();
    }

    pub(crate) fn push(&mut self, byte: u8)
        requires room { length self.old + 1 ≤ 640 }
        ensures { self.new ≡ self.old ++ byte ∷ [] }
    {
        self.bytes.push(byte);
    }

    pub(crate) fn push_all(&mut self, bytes: &[u8])
        requires room { length self.old + length bytes.now ≤ 640 }
        ensures { self.new ≡ self.old ++ bytes.now }
    {
        match self.bytes.try_extend_from_slice(bytes) {
            Ok(()) => {}
            Err(_) => unreachable!(),
        }
    }
}

//! What a machine holds.

use rtl_value::FlagPair;

/// What a transfer reads: registers, flags and memory, and the number of the instruction behind the one that is made, as which the
/// program counter reads.
#[derive(Debug, Drop)]
pub struct Held {
    pub registers: [u32; 64],
    pub flags: [Option<FlagPair>; 8],
    pub memory: Vec<u8>,
    pub next: u32,
}

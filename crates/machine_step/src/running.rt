//! A machine between two instructions.

use machine_devices::{Buffer, Reader};
use machine_turn::Held;

/// Why a machine stops.
#[derive(Clone, Copy, Debug, PartialEq, Eq)]
pub enum Stop {
    Ended(u8),
    /// `kind` is the number of the trap, and `place` that of the instruction that trapped, from 0.
    Trapped { kind: u8, place: u32 },
    /// All the instructions were made that were asked for.
    Spent,
    ReadFault,
    WriteFault,
}

/// What changes as a machine runs.
#[derive(Debug, Drop)]
pub struct Running {
    pub held: Held,
    /// The number of the instruction that is next, from 0.
    pub place: u32,
    pub waiting: Buffer,
    pub reader: Reader,
    /// Why the machine stopped, if it did: it stops so again, and touches no device.
    pub stopped: Option<Stop>,
}

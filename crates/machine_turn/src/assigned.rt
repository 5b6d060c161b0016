//! Assignments that were evaluated.

/// An assignment whose side and address were evaluated.
#[derive(Clone, Copy, Debug, PartialEq, Eq)]
pub enum Assigned {
    Word { register: u8, value: u32 },
    /// The register takes the byte of the input.
    Taken { register: u8 },
    Compared { flag: u8, left: u32, right: u32 },
    Lost { flag: u8 },
    /// Where the program goes on.
    Next { place: u32 },
    Printed { byte: u8 },
    Ended { status: u8 },
    Bytes(Stored),
}

/// The low bytes of a value that go to memory.
#[derive(Clone, Copy, Debug, PartialEq, Eq)]
pub struct Stored {
    pub at: u32,
    pub count: u32,
    pub value: u32,
}

/// What a transfer makes beside registers and flags: where the program goes on, the byte that is printed, the status with which the
/// program ends, and what is stored.
#[derive(Clone, Copy, Debug, PartialEq, Eq)]
pub struct Outcome {
    pub place: u32,
    pub printed: Option<u8>,
    pub status: Option<u8>,
    pub stored: Option<Stored>,
}

//! What a call on an outside object and the whole compiler answer.

ghost use Rattle.std.specs.Prelude.{◌≡◌};
ghost use Rattle.vp_io.specs.Codes.{exit_code};

use thiserror::Error;

/// An outside object failed. Its count of faults has risen.
#[derive(Clone, Copy, Debug, PartialEq, Eq, Error)]
#[error("the object failed")]
pub struct Failed;

/// Which of the inputs an outcome speaks of.
#[derive(Clone, Copy, Debug, PartialEq, Eq)]
pub enum Which {
    Description,
    Text,
    Assembly,
    Input,
}

/// Why a text was refused, and where. Lines and columns are counted from 1, in bytes.
/// In a text other than a C source the column is 1; a detail that the rule does not give is 0.
#[derive(Clone, Copy, Debug, PartialEq, Eq)]
pub struct Reason {
    pub line: u32,
    pub column: u32,
    pub rule: u8,
    pub detail: u32,
}

/// How a run of the compiler ended.
#[derive(Clone, Copy, Debug, PartialEq, Eq)]
pub enum Outcome {
    /// All was done; the status of the program that was run, else 0.
    Done(u8),
    NoMemory,
    /// The words of the command line have no plain form.
    BadWords,
    /// More bytes than the limit of that file.
    FileTooLong(Which),
    BadDescription(Reason),
    BadSource(Reason),
    BadAssembly(Reason),
    ReadFault(Which),
    WriteFault,
    /// The machine stopped by a trap of this kind, at the instruction of this number.
    Trapped { kind: u8, place: u32 },
    /// The machine still ran after so many instructions.
    Spent(u64),
}

impl Outcome {
    /// The code that the process ends with.
    pub fn code(&self) -> u8
        ensures { result ≡ exit_code self.now }
    {
        match self {
            Outcome::Done(status) => *status,
            Outcome::NoMemory => 70,
            Outcome::BadWords => 64,
            Outcome::FileTooLong(_) => 65,
            Outcome::BadDescription(_) => 66,
            Outcome::BadSource(_) => 67,
            Outcome::BadAssembly(_) => 68,
            Outcome::ReadFault(_) => 71,
            Outcome::WriteFault => 72,
            Outcome::Trapped { .. } => 73,
            Outcome::Spent(_) => 74,
        }
    }
}

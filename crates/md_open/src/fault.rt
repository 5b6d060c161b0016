//! Why a text wasn't read.

use std::alloc::{AllocError, AllocFailed};

/// Why a text wasn't read.
#[derive(Clone, Copy, Debug, PartialEq, Eq)]
pub enum OpenFault {
    NoMemory,
    /// The text spells no transfer or tree.
    NoForm,
}

impl<T: Drop> From<AllocFailed<T>> for OpenFault {
    ghost use Rattle.std.specs.Prelude.{◌≡◌};
    ghost use Rattle.md_open.specs.declared.fault.OpenFault.TheVariants.{NoMemory};

    ghost from_gives = { λ _ fault. fault ≡ NoMemory };

    fn from(_: AllocFailed<T>) -> OpenFault {
        OpenFault::NoMemory
    }
}

impl From<AllocError> for OpenFault {
    ghost use Rattle.std.specs.Prelude.{◌≡◌};
    ghost use Rattle.md_open.specs.declared.fault.OpenFault.TheVariants.{NoMemory};

    ghost from_gives = { λ _ fault. fault ≡ NoMemory };

    fn from(_: AllocError) -> OpenFault {
        OpenFault::NoMemory
    }
}

//! Why a machine description is refused.
#![tactic(auto)]

use rtl_tree::NoMemory;
use std::alloc::{AllocError, AllocFailed};
use thiserror::Error;
use vp_io::Reason;

/// The answer of a call that reads or checks a description.
#[derive(Clone, Copy, Debug, PartialEq, Eq, Error)]
pub enum MdFault {
    #[error("no memory")]
    NoMemory,
    /// The least rule that the description breaks, at its least line, with its least detail.
    #[error("description line {}: rule {} ({})", .0.line, .0.rule, .0.detail)]
    Bad(Reason),
}

impl From<NoMemory> for MdFault {
    ghost use Rattle.std.specs.Prelude.{◌≡◌};
    ghost use Rattle.md_fault.specs.declared.MdFault.TheVariants.{NoMemory};

    ghost from_gives = { λ _ f. f ≡ NoMemory };

    fn from(_: NoMemory) -> MdFault {
        MdFault::NoMemory
    }
}

impl From<AllocError> for MdFault {
    ghost use Rattle.std.specs.Prelude.{◌≡◌};
    ghost use Rattle.md_fault.specs.declared.MdFault.TheVariants.{NoMemory};

    ghost from_gives = { λ _ f. f ≡ NoMemory };

    fn from(_: AllocError) -> MdFault {
        MdFault::NoMemory
    }
}

impl<T: Drop> From<AllocFailed<T>> for MdFault {
    ghost use Rattle.std.specs.Prelude.{◌≡◌};
    ghost use Rattle.md_fault.specs.declared.MdFault.TheVariants.{NoMemory};

    ghost from_gives = { λ _ f. f ≡ NoMemory };

    fn from(_: AllocFailed<T>) -> MdFault {
        MdFault::NoMemory
    }
}

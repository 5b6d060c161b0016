//! Why a source has no tree.

ghost use Rattle.std.specs.Prelude.{◌≡◌};
ghost use Rattle.c_tree.specs.declared.fault.CFault.TheVariants.{NoMemory};

use std::alloc::{AllocError, AllocFailed};
use thiserror::Error;
use vp_io::Reason;

/// Why a call of the front end gave nothing.
#[derive(Debug, Drop, Error)]
pub enum CFault {
    #[error("out of memory")]
    NoMemory,
    /// The source breaks a rule.
    #[error("line {}, column {}: rule {}", .0.line, .0.column, .0.rule)]
    Bad(Reason),
}

impl From<AllocError> for CFault {
    ghost from_gives = { λ _ e. e ≡ NoMemory };

    fn from(_e: AllocError) -> CFault {
        CFault::NoMemory
    }
}

impl<T: Drop> From<AllocFailed<T>> for CFault {
    ghost from_gives = { λ _ e. e ≡ NoMemory };

    fn from(_e: AllocFailed<T>) -> CFault {
        CFault::NoMemory
    }
}

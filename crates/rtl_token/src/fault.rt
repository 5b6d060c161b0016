//! Why a text was refused.

use rtl_tree::NoMemory;
use std::alloc::{AllocError, AllocFailed};
use thiserror::Error;

/// Why a text spells no well-formed transfer. Each number is a place in the text, counted in bytes from 0.
#[derive(Clone, Copy, Debug, PartialEq, Eq, Error)]
pub enum TextFault {
    #[error("no memory")]
    NoMemory,
    /// The least byte that begins no token.
    #[error("no token begins at byte {0}")]
    BadToken(usize),
    /// The first token that continues no transfer, or is a name that is unknown. The end of the text counts as a token.
    #[error("no transfer goes on so at byte {0}")]
    BadForm(usize),
    /// The first token of a tree at depth 33.
    #[error("a tree at byte {0} lies too deep")]
    TooDeep(usize),
    /// What was read isn't well formed.
    #[error("the transfer is not well formed")]
    IllFormed,
}

impl From<NoMemory> for TextFault {
    ghost use Rattle.std.specs.Prelude.{◌≡◌};
    ghost use Rattle.rtl_token.specs.declared.fault.TextFault.TheVariants.{NoMemory};

    ghost from_gives = { λ _ f. f ≡ NoMemory };

    fn from(_: NoMemory) -> TextFault {
        TextFault::NoMemory
    }
}

impl From<AllocError> for TextFault {
    ghost use Rattle.std.specs.Prelude.{◌≡◌};
    ghost use Rattle.rtl_token.specs.declared.fault.TextFault.TheVariants.{NoMemory};

    ghost from_gives = { λ _ f. f ≡ NoMemory };

    fn from(_: AllocError) -> TextFault {
        TextFault::NoMemory
    }
}

impl<T: Drop> From<AllocFailed<T>> for TextFault {
    ghost use Rattle.std.specs.Prelude.{◌≡◌};
    ghost use Rattle.rtl_token.specs.declared.fault.TextFault.TheVariants.{NoMemory};

    ghost from_gives = { λ _ f. f ≡ NoMemory };

    fn from(_: AllocFailed<T>) -> TextFault {
        TextFault::NoMemory
    }
}

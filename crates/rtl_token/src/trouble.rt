//! Why nothing was read.

use rtl_tree::NoMemory;
use std::alloc::AllocFailed;

/// Why nothing was read; with each fault goes how many tokens are left from there on.
#[derive(Clone, Copy, Debug, PartialEq, Eq)]
pub enum Trouble {
    NoMemory,
    /// A token continues no transfer.
    Wrong(usize),
    /// A token begins a tree that stands in too many others.
    Deep(usize),
}

impl From<NoMemory> for Trouble {
    ghost use Rattle.std.specs.Prelude.{◌≡◌};
    ghost use Rattle.rtl_token.specs.declared.trouble.Trouble.TheVariants.{NoMemory};

    ghost from_gives = { λ _ f. f ≡ NoMemory };

    fn from(_: NoMemory) -> Trouble {
        Trouble::NoMemory
    }
}

impl<T: Drop> From<AllocFailed<T>> for Trouble {
    ghost use Rattle.std.specs.Prelude.{◌≡◌};
    ghost use Rattle.rtl_token.specs.declared.trouble.Trouble.TheVariants.{NoMemory};

    ghost from_gives = { λ _ f. f ≡ NoMemory };

    fn from(_: AllocFailed<T>) -> Trouble {
        Trouble::NoMemory
    }
}

//! Why a text has no tokens.

ghost use Rattle.std.specs.Prelude.{◌≡◌};
ghost use Rattle.c_lexer.specs.declared.rule.Fault.TheVariants as fault;
ghost use Rattle.c_lexer.specs.declared.rule.Trouble.TheVariants.{NoMemory};

use c_tree::At;
use std::alloc::AllocError;

/// A rule of the source that a text breaks.
#[derive(Clone, Copy, PartialEq, Eq, Debug)]
pub(crate) enum Rule {
    /// A byte begins no token.
    Unknown,
    /// A constant is misspelt, or has a suffix other than `u`.
    Misspelt,
    /// A comment isn't closed.
    OpenComment,
    /// A name has more than 63 bytes.
    LongName,
}

#[derive(Debug, Drop)]
pub(crate) enum Trouble {
    NoMemory,
    Breaks(Rule),
}

impl From<AllocError> for Trouble {
    ghost from_gives = { λ _ e. e ≡ NoMemory };

    fn from(_e: AllocError) -> Trouble {
        Trouble::NoMemory
    }
}

/// The first rule that is broken, and where.
#[derive(Debug, Drop)]
pub(crate) enum Fault {
    NoMemory,
    Breaks(At, Rule),
}

impl From<AllocError> for Fault {
    ghost from_gives = { λ _ e. e ≡ fault.NoMemory };

    fn from(_e: AllocError) -> Fault {
        Fault::NoMemory
    }
}

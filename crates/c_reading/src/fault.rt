//! Why nothing was read.

ghost use Rattle.std.specs.Prelude.{◌≡◌};
ghost use Rattle.c_reading.specs.declared.fault.Fault.TheVariants as fault;

use std::alloc::AllocError;

/// Each number is how many tokens are left where the fault lies.
#[derive(Debug, Drop)]
pub enum Fault {
    NoMemory,
    /// This token continues no program.
    Wrong(usize),
    /// This token stands too deep.
    Deep(usize),
    /// The bound on calls ran out.
    Out,
}

impl From<AllocError> for Fault {
    ghost from_gives = { λ _ e. e ≡ fault.NoMemory };

    fn from(_e: AllocError) -> Fault {
        Fault::NoMemory
    }
}

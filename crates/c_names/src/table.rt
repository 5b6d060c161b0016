//! A table of names.

ghost use Rattle.std.specs.Prelude.{◌≡◌, ℕ, List, Some, None, cond, IfOk};
ghost use Rattle.std.specs.Str.{bytes_eq};
ghost use Rattle.c_names.specs.Known.{known_at};
ghost use Rattle.c_names.specs.declared.table.NoMemory.TheVariants as memory;

use crate::entry::Known;
use std::alloc::{AllocError, AllocFailed};
use std::collections::HashMap;

/// Memory was wanting.
#[derive(Debug, Drop)]
pub enum NoMemory {
    NoMemory,
}

impl From<AllocError> for NoMemory {
    ghost from_gives = { λ _ e. e ≡ memory.NoMemory };

    fn from(_e: AllocError) -> NoMemory {
        NoMemory::NoMemory
    }
}

impl<T: Drop> From<AllocFailed<T>> for NoMemory {
    ghost from_gives = { λ _ e. e ≡ memory.NoMemory };

    fn from(_e: AllocFailed<T>) -> NoMemory {
        NoMemory::NoMemory
    }
}

/// Under each name what it stands for.
pub type Table<'a> = HashMap<&'a [u8], Known>;

pub fn found(table: &Table<'_>, name: &[u8]) -> Option<Known>
    ensures { result ≡ known_at table.now name.now }
{
    match table.get(name) {
        Some(known) => Some(*known),
        None => None,
    }
}

/// With a name that stands for this from now on.
pub fn with_known<'a>(
    mut table: Table<'a>,
    name: &'a [u8],
    known: Known,
) -> Result<Table<'a>, NoMemory>
    ensures { IfOk result (λ more. (other : List ℕ) → known_at more other
        ≡ cond (bytes_eq name.now other) (Some known) (known_at table.entry other)) }
{
    table.insert(name, known)?;
    Ok(table)
}

/// Without a name.
pub fn without<'a>(mut table: Table<'a>, name: &'a [u8]) -> Table<'a>
    ensures { (other : List ℕ) → known_at result other
        ≡ cond (bytes_eq name.now other) None (known_at table.entry other) }
{
    let _ = table.remove(name);
    table
}

/// With what a name stood for before.
pub fn restored<'a>(
    table: Table<'a>,
    name: &'a [u8],
    hidden: Option<Known>,
) -> Result<Table<'a>, NoMemory>
    ensures { IfOk result (λ more. (other : List ℕ) → known_at more other
        ≡ cond (bytes_eq name.now other) hidden (known_at table.entry other)) }
{
    match hidden {
        None => Ok(without(table, name)),
        Some(known) => with_known(table, name, known),
    }
}

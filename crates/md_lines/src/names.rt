//! Lists of names.

ghost use Rattle.std.specs.Prelude.{◌≡◌, ℕ, List, map, IfSome, IfNone, IfOk, IsErrOf};
ghost use Rattle.md_lines.specs.Fields.{AreSpacedNames, IsUptoSpace, BeginsWithName};

use crate::fields::is_name;
use crate::splits::{after_word, place_of};
use std::alloc::{AllocFailed, Global};

/// Why a list of names wasn't read.
#[derive(Clone, Copy, Debug, PartialEq, Eq)]
pub enum NameFault {
    NoMemory,
    /// The bytes are no list of names.
    NoNames,
}

impl<T: Drop> From<AllocFailed<T>> for NameFault {
    ghost use Rattle.md_lines.specs.declared.names.NameFault.TheVariants.{NoMemory};

    ghost from_gives = { λ _ fault. fault ≡ NoMemory };

    fn from(_: AllocFailed<T>) -> NameFault {
        NameFault::NoMemory
    }
}

/// What stands before the first space, and what stands from it on.
fn upto_space(text: &[u8]) -> (&[u8], &[u8])
    ensures { IsUptoSpace text.now result.0.now result.1.now }
{
    match place_of(text, b' ') {
        Some(length) => (&text[..length], &text[length..]),
        None => (text, &text[text.len()..]),
    }
}

/// The name that stands behind a space, and what follows it.
fn first_name(text: &[u8]) -> Option<(&[u8], &[u8])>
    ensures found { IfSome result (λ parts. BeginsWithName text.now parts.0.now parts.1.now) }
    ensures none { IfNone result ((name back : List ℕ) → BeginsWithName text.now name back → ⊥) }
{
    let rest = after_word(text, b" ")?;
    let (name, back) = upto_space(rest);
    if is_name(name) {
        Some((name, back))
    } else {
        None
    }
}

/// The names of a text that has a space before each.
pub fn read_names(alloc: Global, text: &[u8]) -> Result<Vec<&[u8]>, NameFault>
    ensures found { IfOk result (λ names. AreSpacedNames text.now (map (λ name. name.now) names.items)) }
    ensures refused { IsErrOf result NameFault.NoNames → (names : List (List ℕ)) → AreSpacedNames text.now names → ⊥ }
{
    let mut names = Vec::new(alloc);
    let mut rest = text;
    while !rest.is_empty() {
        let Some((name, back)) = first_name(rest) else {
            return Err(NameFault::NoNames);
        };
        names.push(name)?;
        rest = back;
    }
    if names.is_empty() {
        return Err(NameFault::NoNames);
    }
    Ok(names)
}

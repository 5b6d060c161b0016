//! Names and numbers that are declared.

ghost use Rattle.std.specs.Prelude.{◌≡◌, ◌∷◌, ◌++◌, ◌||◌, ◌==◌, ℕ, List, [], map, IfOk};
ghost use Rattle.std.specs.List.{list_any};
ghost use Rattle.std.specs.Str.{bytes_eq};
ghost use Rattle.md_text.specs.Pieces.{has_name};
ghost use Rattle.md_rules.specs.Names.{has_bytes, numbered_of};

use rtl_tree::NoMemory;
use sqlite_items::Items;
use std::collections::HashSet;

/// A register or flag, by its number and its name.
#[derive(Clone, Copy, Debug)]
pub struct Numbered<'a> {
    pub number: u64,
    pub name: &'a [u8],
}

/// Whether a number is declared.
pub fn has_number(declared: &[Numbered<'_>], number: u64) -> bool
    ensures { result ≡ list_any (λ other. other.number == number) declared.now }
{
    declared.iter().any(|other| other.number == number)
}

/// Whether a name is declared with a number.
pub fn has_numbered_name(declared: &[Numbered<'_>], name: &[u8]) -> bool
    ensures { result ≡ list_any (λ other. bytes_eq other.name.now name.now) declared.now }
{
    declared.iter().any(|other| other.name == name)
}

fn is_either(declared: &Numbered<'_>, number: u64, name: &[u8]) -> bool
    ensures { result ≡ (declared.now.number == number || bytes_eq declared.now.name.now name.now) }
{
    declared.number == number || declared.name == name
}

/// Whether a number or a name is declared.
pub fn has_either(declared: &[Numbered<'_>], number: u64, name: &[u8]) -> bool
    ensures { result ≡ list_any (λ other. other.number == number || bytes_eq other.name.now name.now) declared.now }
{
    declared.iter().any(|other| is_either(other, number, name))
}

/// Whether a name is one of a list.
pub fn has_name(names: &[Items<u8>], name: &[u8]) -> bool
    ensures { result ≡ has_name names.now name.now }
{
    names.iter().any(|other| other.as_slice() == name)
}

/// Whether a name is one of a set.
pub fn is_among(names: &HashSet<&[u8]>, name: &[u8]) -> bool
    ensures { result ≡ has_bytes names.now name.now }
{
    names.contains(name)
}

/// The set with one more name.
pub fn with_name<'a>(
    mut names: HashSet<&'a [u8]>,
    name: &'a [u8],
) -> Result<HashSet<&'a [u8]>, NoMemory>
    ensures { IfOk result (λ more. (other : List ℕ) → has_bytes more other ≡ (has_bytes names.entry other || bytes_eq name.now other)) }
{
    names.insert(name)?;
    Ok(names)
}

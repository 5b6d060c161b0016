//! The names that trees mention by number.

ghost use Rattle.std.specs.Prelude.{[], All, Contains, IfSome, IsTrue, MatchOption, Ok, Some, if◌then◌else◌, is_ok, length, slice_get, take, ◌++◌, ◌<◌, ◌≤◌, ◌∷◌, ◌↔◌, ◌≡◌};
ghost use Rattle.rtl_tree.specs.Names.{AreNames, IsName, IsNameByte};

use crate::memory::NoMemory;
use indexmap::IndexSet;
use std::alloc::Global;
use std::marker::Model;

/// A C name of 1 to 63 bytes, which contracts see as its bytes. A keyword counts as a name.
#[derive(Debug, Drop)]
pub struct Name {
    bytes: Vec<u8>,
}

impl Model for Name {
    ghost use Rattle.std.specs.Prelude.{List, ℕ};
    ghost use Rattle.rtl_tree.specs.Names.{IsName};

    ghost Value = { List ℕ };

    ghost view = { λ n. n.bytes.items };

    ghost invariant = { λ n. IsName n.bytes.items };
}

fn is_name_byte(byte: u8) -> bool
    ensures { IsTrue result ↔ IsNameByte byte }
{
    byte == b'_' || byte.is_ascii_alphanumeric()
}

/// Whether these bytes are a C name of 1 to 63 bytes.
pub fn is_name(bytes: &[u8]) -> bool
    ensures { IsTrue result ↔ IsName bytes.now }
{
    match bytes {
        [] => false,
        [first, ..] => {
            !first.is_ascii_digit() && bytes.len() <= 63 && bytes.iter().all(|b| is_name_byte(*b))
        }
    }
}

impl Name {
    /// The name of these bytes.
    pub fn new(bytes: Vec<u8>) -> Name
        requires { IsName bytes.items }
        ensures { result ≡ bytes.items }
    {
        Name { bytes }
    }

    pub fn bytes(&self) -> &[u8]
        ensures bytes { result.now ≡ self.now }
        ensures name { IsName self.now }
    {
        self.bytes.as_slice()
    }
}

/// At most 65,536 different names, which contracts see as the list of their bytes. A name is found by its hash.
#[derive(Drop)]
pub struct NameList {
    set: IndexSet<Vec<u8>>,
}

impl Model for NameList {
    ghost use Rattle.std.specs.Prelude.{List, ℕ};
    ghost use Rattle.rtl_tree.specs.Names.{AreNames, names_of};

    ghost Value = { List (List ℕ) };

    ghost view = { λ n. names_of n.set.keys };

    ghost invariant = { λ n. AreNames (names_of n.set.keys) };
}

impl NameList {
    pub fn new(alloc: Global) -> NameList
        ensures { result ≡ [] }
    {
        NameList {
            set: IndexSet::new(alloc),
        }
    }

    pub fn len(&self) -> usize
        ensures len { result ≡ length self.now }
        ensures names { AreNames self.now }
    {
        self.set.len()
    }

    /// The name at a place.
    pub fn get(&self, i: usize) -> Option<&[u8]>
        ensures found { MatchOption result (length self.now ≤ i) (λ n. slice_get self.now i ≡ Some n.now) }
        ensures name { IfSome result (λ n. IsName n.now) }
    {
        match self.set.get_index(i) {
            Some(bytes) => Some(bytes.as_slice()),
            None => None,
        }
    }

    /// The place of a name.
    pub fn find(&self, name: &[u8]) -> Option<u16>
        ensures { MatchOption result (¬ Contains self.now name.now) (λ i. slice_get self.now i ≡ Some name.now) }
    {
        match self.set.get_index_of(name) {
            Some(place) => Some(place as u16),
            None => None,
        }
    }

    /// Adds a name at the end. Where there is no memory the list stays as it was.
    pub fn push(&mut self, name: Name) -> Result<(), NoMemory>
        requires new { ¬ Contains self.old name }
        requires room { length self.old < 65536 }
        ensures { self.new ≡ (if is_ok result then self.old ++ name ∷ [] else self.old) }
    {
        let _ = name.bytes();
        self.set.insert(name.bytes)?;
        Ok(())
    }

    /// Keeps the first names, at most `len` of them.
    pub fn truncate(&mut self, len: usize)
        ensures { self.new ≡ take len self.old }
    {
        self.set.truncate(len);
    }
}

/// The names of a program's objects and functions. A tree mentions each by its place in its list.
#[derive(Drop)]
pub struct Names {
    pub objects: NameList,
    pub functions: NameList,
}

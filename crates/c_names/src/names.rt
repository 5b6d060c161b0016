//! Names with scopes.

ghost use Rattle.std.specs.Prelude.{◌≡◌, ◌≤◌, ◌<◌, ◌-◌, [], ◌∷◌, ◌++◌, length, take, drop, IfOk};
ghost use Rattle.c_typing.specs.Scopes.{meaning};
ghost use Rattle.c_names.specs.Known.{known_in, is_behind, means_of, is_declared, entries_of, Agrees};

use crate::entry::{Kept, Known};
use crate::table::{NoMemory, Table, found, restored, with_known};
use c_typing::Meaning;
use std::alloc::Global;
use std::collections::HashMap;

/// The names that are declared, the oldest first.
#[derive(Drop)]
pub struct Names<'a> {
    pub entries: Vec<Kept<'a>>,
    table: Table<'a>,
    ghost agrees: { Agrees entries.items table },
}

fn meaning_of(known: Option<Known>) -> Option<Meaning>
    ensures { result ≡ means_of known }
{
    match known {
        None => None,
        Some(known) => Some(known.means),
    }
}

fn is_behind(start: usize, known: Option<Known>) -> bool
    ensures { result ≡ is_behind start known }
{
    match known {
        None => false,
        Some(known) => start <= known.number,
    }
}

fn count(entries: &Vec<Kept<'_>>) -> usize
    ensures { result ≡ length entries.now.items }
{
    entries.len()
}

impl<'a> Names<'a> {
    /// How many names are declared.
    pub fn count(&self) -> usize
        ensures { result ≡ length self.now.entries.items }
    {
        count(&self.entries)
    }

    pub fn new(alloc: Global) -> Names<'a>
        ensures { result.entries.items ≡ [] }
    {
        Names {
            entries: Vec::new(alloc),
            table: HashMap::new(alloc),
        }
    }

    fn known(&self, name: &[u8]) -> Option<Known>
        ensures { result ≡ known_in self.now.entries.items name.now }
    {
        found(&self.table, name)
    }

    /// What a name stands for.
    pub fn find(&self, name: &[u8]) -> Option<Meaning>
        ensures { result ≡ meaning (entries_of self.now.entries.items) name.now }
    {
        meaning_of(self.known(name))
    }

    /// Whether a name is declared in the scope that begins behind the first ones.
    pub fn is_here(&self, start: usize, name: &[u8]) -> bool
        ensures { result ≡ is_declared (meaning (drop start (entries_of self.now.entries.items)) name.now) }
    {
        is_behind(start, self.known(name))
    }

    /// Declares a name. After an `Err` nothing is left.
    pub fn declare(self, name: &'a [u8], means: Meaning) -> Result<Names<'a>, NoMemory>
        ensures { IfOk result (λ names. names.entries.items ≡ self.entry.entries.items
            ++ record { name = name.entry; known = record { means = means; number = length self.entry.entries.items }; hidden = known_in self.entry.entries.items name.now } ∷ []) }
    {
        let hidden = self.known(name);
        let Names { mut entries, table } = self;
        let known = Known {
            means,
            number: count(&entries),
        };
        let table = with_known(table, name, known)?;
        entries.push(Kept {
            name,
            known,
            hidden,
        })?;
        Ok(Names { entries, table })
    }

    /// Forgets the last name.
    fn forget(self) -> Result<Names<'a>, NoMemory>
        requires { 0 < length self.entries.items }
        ensures { IfOk result (λ names. names.entries.items ≡ take (length self.entry.entries.items - 1) self.entry.entries.items) }
    {
        let Names { mut entries, table } = self;
        match entries.pop() {
            None => Ok(Names { entries, table }),
            Some(last) => {
                let table = restored(table, last.name, last.hidden)?;
                Ok(Names { entries, table })
            }
        }
    }

    /// Leaves a scope: forgets the names but the first ones.
    pub fn leave(self, mark: usize) -> Result<Names<'a>, NoMemory>
        requires { mark ≤ length self.entries.items }
        ensures { IfOk result (λ names. names.entries.items ≡ take mark self.entry.entries.items) }
    {
        let mut names = self;
        while names.entries.len() > mark {
            names = names.forget()?;
        }
        Ok(names)
    }
}

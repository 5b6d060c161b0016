//! The first definition of each function, by its number among the definitions.

ghost use Rattle.std.specs.Prelude.{◌≡◌, ℕ, List, ◌+◌, ◌++◌, Some, None, cond, if◌then◌else◌, IfOk};
ghost use Rattle.std.specs.Str.{bytes_eq};
ghost use Rattle.c_typing.specs.Functions.{Heading, headings, headings_in, definition_from, definition_of};
ghost use Rattle.c_functions.specs.Tables.{number_at, first_of};

use c_names::NoMemory;
use c_tree::syntax::External;
use std::alloc::Global;
use std::collections::HashMap;

/// Under each name a number.
pub type Table<'a> = HashMap<&'a [u8], u32>;

/// The numbers of the names that are defined, and how many definitions there are.
#[derive(Drop)]
pub struct Definitions<'a> {
    pub table: Table<'a>,
    pub count: u32,
}

/// The number of a name's first definition.
pub fn found(table: &Table<'_>, name: &[u8]) -> Option<u32>
    ensures { result ≡ number_at table.now name.now }
{
    match table.get(name) {
        Some(number) => Some(*number),
        None => None,
    }
}

fn with_number<'a>(mut table: Table<'a>, name: &'a [u8], number: u32) -> Result<Table<'a>, NoMemory>
    ensures { IfOk result (λ more. (other : List ℕ) → number_at more other
        ≡ cond (bytes_eq name.now other) (Some number) (number_at table.entry other)) }
{
    table.insert(name, number)?;
    Ok(table)
}

/// With a name that has this number unless it has one already.
fn with_first<'a>(table: Table<'a>, name: &'a [u8], number: u32) -> Result<Table<'a>, NoMemory>
    ensures { IfOk result (λ more. (other : List ℕ) → number_at more other
        ≡ first_of (number_at table.entry other) (if bytes_eq name.now other then Some number else None)) }
{
    match found(&table, name) {
        Some(_) => Ok(table),
        None => {
            let more = with_number(table, name, number)?;
            Ok(more)
        }
    }
}

fn with_definition<'a>(known: Definitions<'a>, name: &'a [u8]) -> Result<Definitions<'a>, NoMemory>
    ensures count { IfOk result (λ r. r.count ≡ known.entry.count + 1) }
    ensures table { IfOk result (λ r. (other : List ℕ) → number_at r.table other
        ≡ first_of (number_at known.entry.table other) (if bytes_eq name.now other then Some known.entry.count else None)) }
{
    let Definitions { table, count } = known;
    let Some(next) = count.checked_add(1) else {
        return Err(NoMemory::NoMemory);
    };
    let table = with_first(table, name, count)?;
    Ok(Definitions { table, count: next })
}

/// With what a part of the file defines.
fn with_part<'a>(known: Definitions<'a>, part: &'a External) -> Result<Definitions<'a>, NoMemory>
    ensures { IfOk result (λ r. (rest : List Heading) (name : List ℕ) → first_of (number_at r.table name) (definition_from r.count rest name)
        ≡ first_of (number_at known.entry.table name) (definition_from known.entry.count (headings_in part.now ++ rest) name)) }
{
    match part {
        External::Include(_) => Ok(known),
        External::Declared(_) => Ok(known),
        External::Defined { name, .. } => {
            let more = with_definition(known, name.bytes.as_slice())?;
            Ok(more)
        }
    }
}

pub fn all_definitions<'a>(
    alloc: Global,
    parts: &'a [External],
) -> Result<Definitions<'a>, NoMemory>
    ensures { IfOk result (λ r. (name : List ℕ) → number_at r.table name ≡ definition_of (headings parts.now) name) }
{
    let mut known = Definitions {
        table: HashMap::new(alloc),
        count: 0,
    };
    for part in parts {
        let more = with_part(known, part)?;
        known = more;
    }
    Ok(known)
}

//! The names of a source's functions and objects.

ghost use Rattle.std.specs.Prelude.{◌≡◌, [], ◌∷◌, ◌++◌, IfOk, OnOk, map};

use c_tree::{Function, Static, Typed};
use rtl_tree::{Name, NameList, Names, NoMemory, is_name};
use std::alloc::Global;

/// Adds a name. One that isn't a name of C or that stands there already, which no source has, is answered as want of memory.
fn push_name(alloc: Global, list: &mut NameList, bytes: &[u8]) -> Result<(), NoMemory>
    ensures { OnOk result (list.new ≡ list.old ++ bytes.now ∷ []) }
{
    if list.len() >= 65_536 || list.find(bytes).is_some() || !is_name(bytes) {
        return Err(NoMemory);
    }
    list.push(Name::new(Vec::from_slice(alloc, bytes)?))
}

fn function_names(alloc: Global, functions: &[Function]) -> Result<NameList, NoMemory>
    ensures { IfOk result (λ names. names ≡ map (λ f. f.name) functions.now) }
{
    let mut names = NameList::new(alloc);
    for f in functions {
        push_name(alloc, &mut names, f.name.as_slice())?;
    }
    Ok(names)
}

fn object_names(alloc: Global, statics: &[Static]) -> Result<NameList, NoMemory>
    ensures { IfOk result (λ names. names ≡ map (λ s. s.object.name) statics.now) }
{
    let mut names = NameList::new(alloc);
    for s in statics {
        push_name(alloc, &mut names, s.object.name.as_slice())?;
    }
    Ok(names)
}

/// Functions and objects are numbered as they are in the tree.
pub(crate) fn names_of(alloc: Global, t: &Typed) -> Result<Names, NoMemory>
    ensures functions { IfOk result (λ names. names.functions ≡ map (λ f. f.name) t.now.functions) }
    ensures objects { IfOk result (λ names. names.objects ≡ map (λ s. s.object.name) t.now.statics) }
{
    Ok(Names {
        objects: object_names(alloc, t.statics.as_slice())?,
        functions: function_names(alloc, t.functions.as_slice())?,
    })
}

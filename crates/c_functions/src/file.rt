//! What goes along from part to part of a file.

ghost use Rattle.std.specs.Prelude.{◌≡◌, IfOk};
ghost use Rattle.c_typing.specs.Scopes.{meaning};
ghost use Rattle.c_typing.specs.Functions.{heading, of_getchar, of_putchar};
ghost use Rattle.c_typing.specs.Program as spec;
ghost use Rattle.c_names.specs.Known.{entries_of};
ghost use Rattle.c_functions.specs.Files.{file_of, of_name};

use c_names::{Names, NoMemory};
use c_tree::typed::Static;
use c_typing::Meaning;
use sqlite_items::Items;

/// The names, the static objects, how many headings and how many definitions of functions stand above, and whether the
/// include does.
#[derive(Drop)]
pub struct File<'a> {
    pub names: Names<'a>,
    pub statics: Items<Static>,
    pub above: u32,
    pub definitions: u32,
    pub included: bool,
}

/// A name that stands for something already goes on to do so.
fn with_name<'a>(names: Names<'a>, name: &'a [u8], means: Meaning) -> Result<Names<'a>, NoMemory>
    ensures { IfOk result (λ n. entries_of n.entries.items ≡ spec.with_name (entries_of names.entry.entries.items) (meaning (entries_of names.entry.entries.items) name.now) (spec.entry name.now means)) }
{
    match names.find(name) {
        None => names.declare(name, means),
        Some(_) => Ok(names),
    }
}

fn one_more(count: u32, more: bool) -> Result<u32, NoMemory>
    ensures { IfOk result (λ n. n ≡ spec.more_if more count) }
{
    if !more {
        return Ok(count);
    }
    match count.checked_add(1) {
        None => Err(NoMemory::NoMemory),
        Some(next) => Ok(next),
    }
}

/// Behind a declaration or a definition of a function.
pub fn with_heading<'a>(file: File<'a>, name: &'a [u8], defines: bool) -> Result<File<'a>, NoMemory>
    ensures { IfOk result (λ f. file_of f ≡ spec.with_heading (file_of file.entry) (of_name name.now defines)) }
{
    let File {
        names,
        statics,
        above,
        definitions,
        included,
    } = file;
    let names = with_name(names, name, Meaning::Function(above))?;
    let above = one_more(above, true)?;
    let definitions = one_more(definitions, defines)?;
    Ok(File {
        names,
        statics,
        above,
        definitions,
        included,
    })
}

/// Behind the include.
pub fn with_include<'a>(file: File<'a>) -> Result<File<'a>, NoMemory>
    ensures { IfOk result (λ f. file_of f ≡ spec.with_include (file_of file.entry)) }
{
    let file = with_heading(file, b"getchar", false)?;
    let file = with_heading(file, b"putchar", false)?;
    let File {
        names,
        statics,
        above,
        definitions,
        ..
    } = file;
    Ok(File {
        names,
        statics,
        above,
        definitions,
        included: true,
    })
}

//! The typing of a whole source.

ghost use Rattle.std.specs.Prelude.{◌≡◌, IfOk, IfErr, OnOk};
ghost use Rattle.c_functions.specs.Files.{file_of};
ghost use Rattle.c_typing.specs.Faults.{notes};
ghost use Rattle.c_typing.specs.Expressions.{one};
ghost use Rattle.c_typing.specs.Statements.{joined};
ghost use Rattle.c_typing.specs.Program as spec;
ghost use Rattle.c_functions.specs.Tables.{number_at};
ghost use Rattle.c_types.specs.Answer.{Refuses, HasAnswer, Answers};

use crate::functions::part;
use c_conversions::Told;
use c_functions::{Definitions, File, all_definitions, all_signatures, has_main};
use c_names::{Names, NoMemory};
use c_tree::syntax::External;
use c_tree::typed::Static;
use c_tree::{CFault, Function, Syntax, Typed};
use c_typing::Signature;
use rtl_word::Word;
use sqlite_items::Items;
use std::alloc::Global;
use vp_io::Reason;

fn joined(
    a: Option<Items<Function>>,
    b: Option<Items<Function>>,
) -> Result<Option<Items<Function>>, NoMemory>
    ensures { IfOk result (λ r. r ≡ joined a b) }
{
    match a {
        None => Ok(None),
        Some(mut a) => match b {
            None => Ok(None),
            Some(b) => {
                a.append(b)?;
                Ok(Some(a))
            }
        },
    }
}

fn nothing<'a>(alloc: Global) -> File<'a>
    ensures { file_of result ≡ spec.nothing }
{
    File {
        names: Names::new(alloc),
        statics: Items::new(alloc),
        above: 0,
        definitions: 0,
        included: false,
    }
}

fn all_parts<W: Word>(
    alloc: Global,
    definitions: &Definitions<'_>,
    signatures: &[Signature],
    told: &mut Told,
    parts: &[External],
) -> Result<(Option<Items<Function>>, Items<Static>), NoMemory>
    ensures functions { IfOk result (λ r. r.0 ≡ (spec.all_parts (number_at definitions.now.table) signatures.now W.BITS spec.nothing parts.now).functions) }
    ensures statics { IfOk result (λ r. r.1 ≡ (spec.all_parts (number_at definitions.now.table) signatures.now W.BITS spec.nothing parts.now).file.statics) }
    ensures told { OnOk result (told.new.first ≡ notes told.old.first (spec.all_parts (number_at definitions.now.table) signatures.now W.BITS spec.nothing parts.now).faults) }
{
    let mut file = nothing(alloc);
    let mut functions = Some(Items::new(alloc));
    for x in parts {
        let r = part::<W>(alloc, definitions, signatures, told, file, x)?;
        let more = joined(functions, r.0)?;
        file = r.1;
        functions = more;
    }
    let File { statics, .. } = file;
    Ok((functions, statics))
}

fn typed(functions: Option<Items<Function>>, statics: Items<Static>) -> Option<Typed>
    ensures { result ≡ one (spec.typed statics) functions }
{
    match functions {
        None => None,
        Some(functions) => Some(Typed { statics, functions }),
    }
}

/// The tree of a source, and what is told of it.
fn whole<W: Word>(alloc: Global, told: &mut Told, s: &Syntax) -> Result<Option<Typed>, NoMemory>
    ensures tree { IfOk result (λ t. t ≡ (spec.program W.BITS s.now).tree) }
    ensures told { OnOk result (told.new.first ≡ notes told.old.first (spec.program W.BITS s.now).faults) }
{
    let definitions = all_definitions(alloc, s.parts.as_slice())?;
    let signatures = all_signatures(alloc, &definitions, s.parts.as_slice())?;
    let (functions, statics) = all_parts::<W>(
        alloc,
        &definitions,
        signatures.as_slice(),
        told,
        s.parts.as_slice(),
    )?;
    told.tell_if(!has_main(s.parts.as_slice()), 31, s.end);
    Ok(typed(functions, statics))
}

fn answer(told: Told, tree: Option<Typed>) -> Result<Typed, CFault>
    requires has { HasAnswer told.first tree }
    ensures { Answers told.first tree result }
{
    match told.first {
        Some(fault) => Err(CFault::Bad(Reason {
            line: fault.at.line,
            column: fault.at.column,
            rule: fault.rule,
            detail: 0,
        })),
        None => match tree {
            Some(tree) => Ok(tree),
            None => unreachable!(),
        },
    }
}

/// The one typed tree of a source that breaks none of the rules 11 to 34, else the first rule that it breaks: at the least
/// place, and there the least rule.
pub fn type_program<W: Word>(alloc: Global, s: &Syntax) -> Result<Typed, CFault>
    ensures typed { IfOk result (λ t. spec.IsTyped W.BITS s.now t) }
    ensures refused { IfErr result (λ r. Refuses W.BITS s.now r) }
{
    let mut told = Told { first: None };
    let tree = match whole::<W>(alloc, &mut told, s) {
        Ok(tree) => tree,
        Err(NoMemory::NoMemory) => return Err(CFault::NoMemory),
    };
    answer(told, tree)
}

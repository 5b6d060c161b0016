//! Parts of a file: declarations, and definitions of functions (C11 6.9.1).

ghost use Rattle.std.specs.Prelude.{◌≡◌, ◌≤◌, IfOk, OnOk, length, take, map, false};
ghost use Rattle.c_tree.specs.declared.syntax.External.TheVariants as external;
ghost use Rattle.c_typing.specs.Faults.{notes};
ghost use Rattle.c_typing.specs.Expressions.{one};
ghost use Rattle.c_typing.specs.Statements as st;
ghost use Rattle.c_typing.specs.Program as spec;
ghost use Rattle.c_names.specs.Known.{entries_of};
ghost use Rattle.c_scopes.specs.Here.{at_names};
ghost use Rattle.c_objects.specs.Within.{within_of};
ghost use Rattle.c_functions.specs.Files.{file_of};
ghost use Rattle.c_functions.specs.Tables.{number_at};

use crate::statics::static_items;
use c_conversions::{Told, type_of_words};
use c_functions::{
    Definitions, File, Params, Place, tell_heading, with_heading, with_include, with_parameters,
};
use c_names::{Names, NoMemory};
use c_objects::Functions;
use c_scopes::{Labels, State, return_type};
use c_statements::sequence;
use c_tree::syntax::{Declaration, External, Identifier, Parameters, Return, Statement};
use c_tree::{At, CType, Function, Object, Stat};
use c_typing::{Around, Signature};
use rtl_word::Word;
use sqlite_items::{Boxed, Items};
use std::alloc::Global;

/// How many names stand outside.
fn outside(names: &Names<'_>) -> usize
    ensures { result ≡ length (entries_of names.now.entries.items) }
{
    names.count()
}

fn around_body(of: CType, start: usize) -> Around
    ensures { result ≡ spec.around_body of start }
{
    Around {
        result: of,
        start,
        labels_stand: false,
        loops: false,
        breaks: false,
    }
}

fn function(
    alloc: Global,
    brace: At,
    name: &Identifier,
    of: CType,
    params: Items<Object>,
    locals: Items<Object>,
    list: Option<Items<Boxed<Stat>>>,
) -> Result<Option<Items<Function>>, NoMemory>
    ensures { IfOk result (λ r. r ≡ st.single (one (spec.function_tree brace name.now of params locals) list)) }
{
    let Some(list) = list else {
        return Ok(None);
    };
    let copy = Items::from_slice(alloc, name.bytes.as_slice())?;
    let body = Boxed::new(alloc, Stat::Block(brace, list))?;
    let mut functions = Items::new(alloc);
    functions.push(Function {
        name: copy,
        result: of,
        params,
        locals,
        body,
        at: name.at,
    })?;
    Ok(Some(functions))
}

/// The statements of a body, where the parameters stand in its scope: their trees, the local objects, and the names that
/// are left behind it.
fn body<'a, W: Word>(
    alloc: Global,
    functions: &Functions<'_>,
    around: Around,
    told: &mut Told,
    names: Names<'a>,
    list: &'a [Statement],
) -> Result<(Option<Items<Boxed<Stat>>>, Items<Object>, Names<'a>), NoMemory>
    requires { around.start ≤ length (entries_of names.entries.items) }
    ensures trees { IfOk result (λ r. r.0 ≡ (st.sequence (within_of W.BITS functions.now) around (at_names names.entry) (map (st.walk (within_of W.BITS functions.now)) list.now)).tree) }
    ensures locals { IfOk result (λ r. r.1 ≡ (st.sequence (within_of W.BITS functions.now) around (at_names names.entry) (map (st.walk (within_of W.BITS functions.now)) list.now)).here.locals) }
    ensures names { IfOk result (λ r. entries_of r.2.entries.items ≡ take around.start (entries_of names.entry.entries.items)) }
    ensures told { OnOk result (told.new.first ≡ notes told.old.first (st.sequence (within_of W.BITS functions.now) around (at_names names.entry) (map (st.walk (within_of W.BITS functions.now)) list.now)).faults) }
{
    let state = State {
        names,
        locals: Items::new(alloc),
        labels: Labels::new(alloc),
    };
    let (trees, state) = sequence::<W>(alloc, functions, around, told, state, list)?;
    let State { names, locals, .. } = state;
    Ok((trees, locals, names))
}

/// A definition behind its heading.
fn defined_body<'a, W: Word>(
    alloc: Global,
    signatures: &[Signature],
    told: &mut Told,
    file: File<'a>,
    gives: Return,
    name: &'a Identifier,
    parameters: &'a Parameters,
    brace: At,
    list: &'a [Statement],
) -> Result<(Option<Items<Function>>, File<'a>), NoMemory>
    ensures functions { IfOk result (λ r. r.0 ≡ (spec.with_body signatures.now W.BITS (file_of file.entry) gives name.now parameters.now brace list.now).functions) }
    ensures file { IfOk result (λ r. file_of r.1 ≡ file_of file.entry) }
    ensures told { OnOk result (told.new.first ≡ notes told.old.first (spec.with_body signatures.now W.BITS (file_of file.entry) gives name.now parameters.now brace list.now).faults) }
{
    let File {
        names,
        statics,
        above,
        definitions,
        included,
    } = file;
    let start = outside(&names);
    let place = Place {
        included,
        start,
        defines: true,
    };
    let params = Params {
        names,
        objects: Items::new(alloc),
    };
    let params = with_parameters(alloc, told, place, params, parameters)?;
    let Params { names, objects } = params;
    let functions = Functions {
        signatures,
        included,
    };
    let of = return_type(gives);
    let (trees, locals, names) = body::<W>(
        alloc,
        &functions,
        around_body(of, start),
        told,
        names,
        list,
    )?;
    let tree = function(alloc, brace, name, of, objects, locals, trees)?;
    Ok((
        tree,
        File {
            names,
            statics,
            above,
            definitions,
            included,
        },
    ))
}

/// A declaration of a function behind its heading: the names of its parameters end with it.
fn prototype<'a>(
    alloc: Global,
    told: &mut Told,
    file: File<'a>,
    parameters: &'a Parameters,
) -> Result<File<'a>, NoMemory>
    ensures file { IfOk result (λ f. file_of f ≡ file_of file.entry) }
    ensures told { OnOk result (told.new.first ≡ notes told.old.first (spec.faults_of_parameters (file_of file.entry) false parameters.now)) }
{
    let File {
        names,
        statics,
        above,
        definitions,
        included,
    } = file;
    let start = outside(&names);
    let place = Place {
        included,
        start,
        defines: false,
    };
    let params = Params {
        names,
        objects: Items::new(alloc),
    };
    let params = with_parameters(alloc, told, place, params, parameters)?;
    let Params { names, .. } = params;
    let names = names.leave(start)?;
    Ok(File {
        names,
        statics,
        above,
        definitions,
        included,
    })
}

fn declared<'a, W: Word>(
    alloc: Global,
    definitions: &Definitions<'_>,
    signatures: &[Signature],
    told: &mut Told,
    file: File<'a>,
    d: &'a Declaration,
) -> Result<File<'a>, NoMemory>
    ensures file { IfOk result (λ f. file_of f ≡ (spec.part (number_at definitions.now.table) signatures.now W.BITS (file_of file.entry) (external.Declared d.now)).file) }
    ensures told { OnOk result (told.new.first ≡ notes told.old.first (spec.part (number_at definitions.now.table) signatures.now W.BITS (file_of file.entry) (external.Declared d.now)).faults) }
{
    match d {
        Declaration::Objects(_, words, list) => {
            static_items::<W>(
                alloc,
                signatures,
                told,
                file,
                type_of_words(*words),
                list.as_slice(),
            )
        }
        Declaration::Function(at, gives, name, parameters) => {
            tell_heading(
                definitions,
                signatures,
                told,
                &file,
                *at,
                *gives,
                name,
                parameters,
                false,
            );
            let file = with_heading(file, name.bytes.as_slice(), false)?;
            prototype(alloc, told, file, parameters)
        }
    }
}

/// A part of the file: the functions that it defines, and what goes along behind it.
pub fn part<'a, W: Word>(
    alloc: Global,
    definitions: &Definitions<'_>,
    signatures: &[Signature],
    told: &mut Told,
    file: File<'a>,
    x: &'a External,
) -> Result<(Option<Items<Function>>, File<'a>), NoMemory>
    ensures functions { IfOk result (λ r. r.0 ≡ (spec.part (number_at definitions.now.table) signatures.now W.BITS (file_of file.entry) x.now).functions) }
    ensures file { IfOk result (λ r. file_of r.1 ≡ (spec.part (number_at definitions.now.table) signatures.now W.BITS (file_of file.entry) x.now).file) }
    ensures told { OnOk result (told.new.first ≡ notes told.old.first (spec.part (number_at definitions.now.table) signatures.now W.BITS (file_of file.entry) x.now).faults) }
{
    match x {
        External::Include(_) => Ok((Some(Items::new(alloc)), with_include(file)?)),
        External::Declared(d) => {
            let file = declared::<W>(alloc, definitions, signatures, told, file, d)?;
            Ok((Some(Items::new(alloc)), file))
        }
        External::Defined {
            at,
            gives,
            name,
            parameters,
            brace,
            body,
        } => {
            tell_heading(
                definitions,
                signatures,
                told,
                &file,
                *at,
                *gives,
                name,
                parameters,
                true,
            );
            let file = with_heading(file, name.bytes.as_slice(), true)?;
            defined_body::<W>(
                alloc,
                signatures,
                told,
                file,
                *gives,
                name,
                parameters,
                *brace,
                body.as_slice(),
            )
        }
    }
}

//! Declarations of local objects (C11 6.7).

ghost use Rattle.std.specs.Prelude.{◌≡◌, ◌++◌, [], ◌∷◌, length, Some, None, IfOk, OnOk};
ghost use Rattle.c_typing.specs.Faults.{notes};
ghost use Rattle.c_typing.specs.Expressions.{one};
ghost use Rattle.c_typing.specs.Statements as spec;
ghost use Rattle.c_scopes.specs.Here.{here_of};
ghost use Rattle.c_objects.specs.Within.{within_of};

use crate::at::Functions;
use crate::sizes::{extent_of, length_of, sized};
use crate::values::initialised;
use c_conversions::{Told, type_of_words};
use c_names::NoMemory;
use c_scopes::{State, is_forbidden_function, is_forbidden_object, with_item};
use c_tree::syntax::{Declaration, Identifier, Initialiser, Item, Size};
use c_tree::typed::{Local, LocalInit, Variable};
use c_tree::{At, CType, Object};
use c_typing::{Around, Extent, Meaning, Typing};
use rtl_word::Word;
use sqlite_items::Items;
use std::alloc::Global;

fn means_object(number: u32, of: CType, length: Option<u32>) -> Meaning
    ensures { result ≡ spec.means_object number of length }
{
    match length {
        None => Meaning::Scalar(Variable::Local(number), of),
        Some(n) => Meaning::Array(Variable::Local(number), of, n),
    }
}

/// Declares an object. Its name stands for it from here on.
fn with_object<'a>(
    alloc: Global,
    state: State<'a>,
    name: &'a Identifier,
    of: CType,
    len: Option<u32>,
) -> Result<(u32, State<'a>), NoMemory>
    ensures number { IfOk result (λ r. r.0 ≡ length (here_of state.entry).locals) }
    ensures here { IfOk result (λ r. here_of r.1 ≡ spec.with_object (here_of state.entry) name.now.bytes name.now.at of len) }
{
    let State {
        names,
        mut locals,
        labels,
    } = state;
    let Ok(number) = u32::try_from(locals.len()) else {
        return Err(NoMemory::NoMemory);
    };
    let names = names.declare(name.bytes.as_slice(), means_object(number, of, len))?;
    let copy = Items::from_slice(alloc, name.bytes.as_slice())?;
    locals.push(Object {
        name: copy,
        element: of,
        length: len,
        at: name.at,
    })?;
    Ok((
        number,
        State {
            names,
            locals,
            labels,
        },
    ))
}

fn local(number: u32, init: Option<LocalInit>) -> Option<Local>
    ensures { result ≡ one (spec.local_of number) init }
{
    Some(Local {
        number,
        init: init?,
    })
}

/// The size of an object that is declared here.
fn sized_here<W: Word>(
    alloc: Global,
    functions: &Functions<'_>,
    told: &mut Told,
    state: &State<'_>,
    size: &Size,
) -> Result<Typing, NoMemory>
    ensures seen { IfOk result (λ t. t ≡ (spec.sized (within_of W.BITS functions.now) (here_of state.now) size.now).seen) }
    ensures told { OnOk result (told.new.first ≡ notes told.old.first (spec.sized (within_of W.BITS functions.now) (here_of state.now) size.now).faults) }
{
    sized::<W>(alloc, functions, told, &state.names, size)
}

fn initialised_here<W: Word>(
    alloc: Global,
    functions: &Functions<'_>,
    told: &mut Told,
    state: &State<'_>,
    of: CType,
    extent: Extent,
    init: &Initialiser,
) -> Result<Option<LocalInit>, NoMemory>
    ensures tree { IfOk result (λ t. t ≡ (spec.initialised (within_of W.BITS functions.now) (here_of state.now) of extent init.now).0) }
    ensures told { OnOk result (told.new.first ≡ notes told.old.first (spec.initialised (within_of W.BITS functions.now) (here_of state.now) of extent init.now).1) }
{
    initialised::<W>(alloc, functions, told, &state.names, of, extent, init)
}

fn item<'a, W: Word>(
    alloc: Global,
    functions: &Functions<'_>,
    around: Around,
    told: &mut Told,
    state: State<'a>,
    of: CType,
    i: &'a Item,
) -> Result<(Option<Local>, State<'a>), NoMemory>
    ensures tree { IfOk result (λ r. r.0 ≡ (spec.item (within_of W.BITS functions.now) around (here_of state.entry) of i.now).tree) }
    ensures here { IfOk result (λ r. here_of r.1 ≡ (spec.item (within_of W.BITS functions.now) around (here_of state.entry) of i.now).here) }
    ensures told { OnOk result (told.new.first ≡ notes told.old.first (spec.item (within_of W.BITS functions.now) around (here_of state.entry) of i.now).faults) }
{
    let twice = state.names.is_here(around.start, i.name.bytes.as_slice());
    told.tell_if(twice, 12, i.name.at);
    let forbidden = is_forbidden_object(functions.included, i.name.bytes.as_slice());
    told.tell_if(forbidden, 14, i.name.at);
    let seen = sized_here::<W>(alloc, functions, told, &state, &i.size)?;
    let extent = extent_of::<W>(functions, told, &seen, &i.size, &i.initialiser, i.name.at)?;
    let (number, state) = with_object(alloc, state, &i.name, of, length_of(extent))?;
    let init = initialised_here::<W>(alloc, functions, told, &state, of, extent, &i.initialiser)?;
    Ok((local(number, init), state))
}

fn items<'a, W: Word>(
    alloc: Global,
    functions: &Functions<'_>,
    around: Around,
    told: &mut Told,
    state: State<'a>,
    of: CType,
    list: &'a [Item],
) -> Result<(Option<Items<Local>>, State<'a>), NoMemory>
    ensures tree { IfOk result (λ r. r.0 ≡ (spec.items (within_of W.BITS functions.now) around (here_of state.entry) of list.now).tree) }
    ensures here { IfOk result (λ r. here_of r.1 ≡ (spec.items (within_of W.BITS functions.now) around (here_of state.entry) of list.now).here) }
    ensures told { OnOk result (told.new.first ≡ notes told.old.first (spec.items (within_of W.BITS functions.now) around (here_of state.entry) of list.now).faults) }
{
    let mut state = state;
    let mut trees = Some(Items::new(alloc));
    for i in list {
        let r = item::<W>(alloc, functions, around, told, state, of, i)?;
        let more = with_item(trees, r.0)?;
        state = r.1;
        trees = more;
    }
    Ok((trees, state))
}

/// The objects of a declaration in a block, and its place.
pub fn locals_of<'a, W: Word>(
    alloc: Global,
    functions: &Functions<'_>,
    around: Around,
    told: &mut Told,
    state: State<'a>,
    d: &'a Declaration,
) -> Result<(At, Option<Items<Local>>, State<'a>), NoMemory>
    ensures at { IfOk result (λ r. r.0 ≡ spec.place_of_declaration (within_of W.BITS functions.now) d.now) }
    ensures tree { IfOk result (λ r. r.1 ≡ (spec.locals_of (within_of W.BITS functions.now) around (here_of state.entry) d.now).tree) }
    ensures here { IfOk result (λ r. here_of r.2 ≡ (spec.locals_of (within_of W.BITS functions.now) around (here_of state.entry) d.now).here) }
    ensures told { OnOk result (told.new.first ≡ notes told.old.first (spec.locals_of (within_of W.BITS functions.now) around (here_of state.entry) d.now).faults) }
{
    match d {
        Declaration::Objects(at, words, list) => {
            let (trees, state) = items::<W>(
                alloc,
                functions,
                around,
                told,
                state,
                type_of_words(*words),
                list.as_slice(),
            )?;
            Ok((*at, trees, state))
        }
        Declaration::Function(at, gives, name, parameters) => {
            let forbidden = is_forbidden_function(
                functions.included,
                name.bytes.as_slice(),
                *gives,
                parameters,
                false,
            );
            told.tell_if(forbidden, 14, *at);
            told.tell(15, *at);
            Ok((*at, None, state))
        }
    }
}

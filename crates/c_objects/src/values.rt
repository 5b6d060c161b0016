//! Initialisers of local objects (C11 6.7.9).

ghost use Rattle.std.specs.Prelude.{◌≡◌, Some, map, IfOk, OnOk};
ghost use Rattle.c_tree.specs.declared.syntax.Initialiser.TheVariants as initialiser;
ghost use Rattle.c_tree.specs.declared.typed.LocalInit.TheVariants as local_init;
ghost use Rattle.c_typing.specs.Faults.{notes, ◌also◌};
ghost use Rattle.c_typing.specs.Types as types;
ghost use Rattle.c_typing.specs.Expressions.{broken_if, one};
ghost use Rattle.c_typing.specs.Statements as spec;
ghost use Rattle.c_scopes.specs.Here.{at_names};
ghost use Rattle.c_objects.specs.Within.{within_of};

use crate::at::{Functions, value_at};
use crate::sizes::is_full;
use c_conversions::{Told, converted};
use c_names::{Names, NoMemory};
use c_scopes::with_item;
use c_tree::syntax::{Expr, Initialiser};
use c_tree::typed::LocalInit;
use c_tree::{At, CType, TypedExpr};
use c_typing::Extent;
use rtl_word::Word;
use sqlite_items::{Boxed, Items};
use std::alloc::Global;

fn converted_value(
    alloc: Global,
    of: CType,
    e: Option<Boxed<TypedExpr>>,
) -> Result<Option<TypedExpr>, NoMemory>
    ensures { IfOk result (λ r. r ≡ one (types.converted of) e) }
{
    let Some(e) = e else {
        return Ok(None);
    };
    Ok(Some(converted(alloc, of, e)?.into_inner()))
}

fn value_init(
    alloc: Global,
    of: CType,
    e: Option<Boxed<TypedExpr>>,
) -> Result<Option<LocalInit>, NoMemory>
    ensures { IfOk result (λ r. r ≡ one (spec.value_init of) e) }
{
    let Some(e) = e else {
        return Ok(None);
    };
    Ok(Some(LocalInit::Value(converted(alloc, of, e)?.into_inner())))
}

/// A value of a list, where so many stand before it.
fn listed_value<W: Word>(
    alloc: Global,
    functions: &Functions<'_>,
    told: &mut Told,
    names: &Names<'_>,
    of: CType,
    extent: Extent,
    count: usize,
    e: &Expr,
) -> Result<Option<TypedExpr>, NoMemory>
    ensures tree { IfOk result (λ r. r ≡ one (types.converted of) (spec.value_at (within_of W.BITS functions.now) (at_names names.now) e.now).seen.tree) }
    ensures told { OnOk result (told.new.first ≡ notes told.old.first
        (let j = spec.value_at (within_of W.BITS functions.now) (at_names names.now) e.now in
        j.faults also broken_if (spec.is_full extent count) 19 j.seen.at)) }
{
    let a = value_at::<W>(alloc, functions, told, names, e)?;
    told.tell_if(is_full(extent, count), 19, a.at);
    converted_value(alloc, of, a.tree)
}

fn values<W: Word>(
    alloc: Global,
    functions: &Functions<'_>,
    told: &mut Told,
    names: &Names<'_>,
    of: CType,
    extent: Extent,
    list: &[Expr],
) -> Result<Option<Items<TypedExpr>>, NoMemory>
    ensures trees { IfOk result (λ r. r ≡ spec.values of (map (spec.value_at (within_of W.BITS functions.now) (at_names names.now)) list.now)) }
    ensures told { OnOk result (told.new.first ≡ notes told.old.first (spec.values_faults extent 0 (map (spec.value_at (within_of W.BITS functions.now) (at_names names.now)) list.now))) }
{
    let mut trees = Some(Items::new(alloc));
    let mut i = 0;
    for e in list {
        let one = listed_value::<W>(alloc, functions, told, names, of, extent, i, e)?;
        let more = with_item(trees, one)?;
        trees = more;
        i += 1;
    }
    Ok(trees)
}

fn list_init(list: Option<Items<TypedExpr>>) -> Option<LocalInit>
    ensures { result ≡ one local_init.List list }
{
    match list {
        None => None,
        Some(list) => Some(LocalInit::List(list)),
    }
}

fn initial_list<W: Word>(
    alloc: Global,
    functions: &Functions<'_>,
    told: &mut Told,
    names: &Names<'_>,
    of: CType,
    extent: Extent,
    at: At,
    list: &Items<Expr>,
    comma: bool,
) -> Result<Option<LocalInit>, NoMemory>
    ensures tree { IfOk result (λ t. t ≡ (spec.initialised (within_of W.BITS functions.now) (at_names names.now) of extent (initialiser.List at list.now comma)).0) }
    ensures told { OnOk result (told.new.first ≡ notes told.old.first (spec.initialised (within_of W.BITS functions.now) (at_names names.now) of extent (initialiser.List at list.now comma)).1) }
{
    match extent {
        Extent::Scalar => {
            told.tell(19, at);
            let _ = values::<W>(
                alloc,
                functions,
                told,
                names,
                of,
                Extent::Scalar,
                list.as_slice(),
            )?;
            Ok(None)
        }
        Extent::Elements(n) => {
            let trees = values::<W>(
                alloc,
                functions,
                told,
                names,
                of,
                Extent::Elements(n),
                list.as_slice(),
            )?;
            Ok(list_init(trees))
        }
        Extent::Unknown => {
            let trees = values::<W>(
                alloc,
                functions,
                told,
                names,
                of,
                Extent::Unknown,
                list.as_slice(),
            )?;
            Ok(list_init(trees))
        }
    }
}

fn initial_value<W: Word>(
    alloc: Global,
    functions: &Functions<'_>,
    told: &mut Told,
    names: &Names<'_>,
    of: CType,
    extent: Extent,
    e: &Expr,
) -> Result<Option<LocalInit>, NoMemory>
    ensures tree { IfOk result (λ t. t ≡ (spec.initialised (within_of W.BITS functions.now) (at_names names.now) of extent (initialiser.Value e.now)).0) }
    ensures told { OnOk result (told.new.first ≡ notes told.old.first (spec.initialised (within_of W.BITS functions.now) (at_names names.now) of extent (initialiser.Value e.now)).1) }
{
    let a = value_at::<W>(alloc, functions, told, names, e)?;
    match extent {
        Extent::Scalar => value_init(alloc, of, a.tree),
        Extent::Elements(_) => {
            told.tell(19, a.at);
            Ok(None)
        }
        Extent::Unknown => {
            told.tell(19, a.at);
            Ok(None)
        }
    }
}

pub fn initialised<W: Word>(
    alloc: Global,
    functions: &Functions<'_>,
    told: &mut Told,
    names: &Names<'_>,
    of: CType,
    extent: Extent,
    init: &Initialiser,
) -> Result<Option<LocalInit>, NoMemory>
    ensures tree { IfOk result (λ t. t ≡ (spec.initialised (within_of W.BITS functions.now) (at_names names.now) of extent init.now).0) }
    ensures told { OnOk result (told.new.first ≡ notes told.old.first (spec.initialised (within_of W.BITS functions.now) (at_names names.now) of extent init.now).1) }
{
    match init {
        Initialiser::Absent => Ok(Some(LocalInit::Absent)),
        Initialiser::Value(e) => initial_value::<W>(alloc, functions, told, names, of, extent, e),
        Initialiser::List(at, list, comma) => {
            initial_list::<W>(alloc, functions, told, names, of, extent, *at, list, *comma)
        }
    }
}

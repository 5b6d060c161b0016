//! What stands in the parentheses of a `for` (C11 6.8.5.3).

ghost use Rattle.std.specs.Prelude.{◌≡◌, Some, None, IfOk, OnOk};
ghost use Rattle.c_tree.specs.declared.typed.Start.TheVariants as begin;
ghost use Rattle.c_typing.specs.Faults.{notes, ◌also◌};
ghost use Rattle.c_typing.specs.Expressions.{one, together};
ghost use Rattle.c_typing.specs.Statements as spec;
ghost use Rattle.c_scopes.specs.Here.{here_of};
ghost use Rattle.c_objects.specs.Within.{within_of};

use c_conversions::Told;
use c_names::NoMemory;
use c_nodes::statements::ForParts;
use c_objects::{Functions, expression_at, locals_of, value_at};
use c_scopes::State;
use c_tree::syntax::{Expr, Start};
use c_tree::typed::{Local, Start as Begin};
use c_tree::{At, TypedExpr};
use c_typing::Around;
use rtl_word::Word;
use sqlite_items::{Boxed, Items};
use std::alloc::Global;

fn begin_value(e: Option<Boxed<TypedExpr>>) -> Option<Begin>
    ensures { result ≡ one begin.Value e }
{
    match e {
        None => None,
        Some(e) => Some(Begin::Value(e.into_inner())),
    }
}

fn begin_declared(at: At, list: Option<Items<Local>>) -> Option<Begin>
    ensures { result ≡ one (begin.Declared at) list }
{
    match list {
        None => None,
        Some(list) => Some(Begin::Declared(at, list)),
    }
}

fn begun<'a, W: Word>(
    alloc: Global,
    functions: &Functions<'_>,
    around: Around,
    told: &mut Told,
    state: State<'a>,
    start: &'a Start,
) -> Result<(Option<Begin>, State<'a>), NoMemory>
    ensures tree { IfOk result (λ r. r.0 ≡ (spec.begun (within_of W.BITS functions.now) around (here_of state.entry) start.now).tree) }
    ensures here { IfOk result (λ r. here_of r.1 ≡ (spec.begun (within_of W.BITS functions.now) around (here_of state.entry) start.now).here) }
    ensures told { OnOk result (told.new.first ≡ notes told.old.first (spec.begun (within_of W.BITS functions.now) around (here_of state.entry) start.now).faults) }
{
    match start {
        Start::Absent => Ok((Some(Begin::Absent), state)),
        Start::Value(e) => {
            let a = expression_at::<W>(alloc, functions, told, &state.names, e)?;
            Ok((begin_value(a.tree), state))
        }
        Start::Declared(d) => {
            let (at, list, state) = locals_of::<W>(alloc, functions, around, told, state, d)?;
            Ok((begin_declared(at, list), state))
        }
    }
}

fn some(e: Option<Boxed<TypedExpr>>) -> Option<Option<Boxed<TypedExpr>>>
    ensures { result ≡ one Some e }
{
    match e {
        None => None,
        Some(e) => Some(Some(e)),
    }
}

fn tested<W: Word>(
    alloc: Global,
    functions: &Functions<'_>,
    told: &mut Told,
    state: &State<'_>,
    e: &Option<Expr>,
) -> Result<Option<Option<Boxed<TypedExpr>>>, NoMemory>
    ensures tree { IfOk result (λ t. t ≡ (spec.tested (within_of W.BITS functions.now) (here_of state.now) e.now).0) }
    ensures told { OnOk result (told.new.first ≡ notes told.old.first (spec.tested (within_of W.BITS functions.now) (here_of state.now) e.now).1) }
{
    match e {
        None => Ok(Some(None)),
        Some(e) => {
            let a = value_at::<W>(alloc, functions, told, &state.names, e)?;
            Ok(some(a.tree))
        }
    }
}

fn stepped<W: Word>(
    alloc: Global,
    functions: &Functions<'_>,
    told: &mut Told,
    state: &State<'_>,
    e: &Option<Expr>,
) -> Result<Option<Option<Boxed<TypedExpr>>>, NoMemory>
    ensures tree { IfOk result (λ t. t ≡ (spec.stepped (within_of W.BITS functions.now) (here_of state.now) e.now).0) }
    ensures told { OnOk result (told.new.first ≡ notes told.old.first (spec.stepped (within_of W.BITS functions.now) (here_of state.now) e.now).1) }
{
    match e {
        None => Ok(Some(None)),
        Some(e) => {
            let a = expression_at::<W>(alloc, functions, told, &state.names, e)?;
            Ok(some(a.tree))
        }
    }
}

/// The test and the step.
fn controls<W: Word>(
    alloc: Global,
    functions: &Functions<'_>,
    told: &mut Told,
    state: &State<'_>,
    test: &Option<Expr>,
    step: &Option<Expr>,
) -> Result<
    (
        Option<Option<Boxed<TypedExpr>>>,
        Option<Option<Boxed<TypedExpr>>>,
    ),
    NoMemory,
>
    ensures test { IfOk result (λ r. r.0 ≡ (spec.tested (within_of W.BITS functions.now) (here_of state.now) test.now).0) }
    ensures step { IfOk result (λ r. r.1 ≡ (spec.stepped (within_of W.BITS functions.now) (here_of state.now) step.now).0) }
    ensures told { OnOk result (told.new.first ≡ notes told.old.first
        ((spec.tested (within_of W.BITS functions.now) (here_of state.now) test.now).1 also (spec.stepped (within_of W.BITS functions.now) (here_of state.now) step.now).1)) }
{
    let test = tested::<W>(alloc, functions, told, state, test)?;
    let step = stepped::<W>(alloc, functions, told, state, step)?;
    Ok((test, step))
}

fn together(
    a: Option<Begin>,
    b: Option<Option<Boxed<TypedExpr>>>,
    c: Option<Option<Boxed<TypedExpr>>>,
) -> Option<ForParts>
    ensures { result ≡ together a b c }
{
    let Some(a) = a else {
        return None;
    };
    let Some(b) = b else {
        return None;
    };
    let Some(c) = c else {
        return None;
    };
    Some((a, b, c))
}

/// The parts of a `for`, whose scope has begun.
pub fn for_parts<'a, W: Word>(
    alloc: Global,
    functions: &Functions<'_>,
    around: Around,
    told: &mut Told,
    state: State<'a>,
    start: &'a Start,
    test: &Option<Expr>,
    step: &Option<Expr>,
) -> Result<(Option<ForParts>, State<'a>), NoMemory>
    ensures tree { IfOk result (λ r. r.0 ≡
        (let b = spec.begun (within_of W.BITS functions.now) around (here_of state.entry) start.now in
        together b.tree (spec.tested (within_of W.BITS functions.now) b.here test.now).0 (spec.stepped (within_of W.BITS functions.now) b.here step.now).0)) }
    ensures here { IfOk result (λ r. here_of r.1 ≡ (spec.begun (within_of W.BITS functions.now) around (here_of state.entry) start.now).here) }
    ensures told { OnOk result (told.new.first ≡ notes told.old.first
        (let b = spec.begun (within_of W.BITS functions.now) around (here_of state.entry) start.now in
        b.faults also (spec.tested (within_of W.BITS functions.now) b.here test.now).1 also (spec.stepped (within_of W.BITS functions.now) b.here step.now).1)) }
{
    let (start, state) = begun::<W>(alloc, functions, around, told, state, start)?;
    let (test, step) = controls::<W>(alloc, functions, told, &state, test, step)?;
    Ok((together(start, test, step), state))
}

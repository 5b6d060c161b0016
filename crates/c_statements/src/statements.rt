//! Statements (C11 6.8): one walk, with scopes that are left as they are entered.

ghost use Rattle.std.specs.Prelude.{◌≡◌, ◌≤◌, map, length, IfOk, OnOk};
ghost use Rattle.c_tree.specs.declared.syntax.Statement.TheVariants as kind;
ghost use Rattle.c_typing.specs.Expressions.{three};
ghost use Rattle.c_typing.specs.Faults.{notes, ◌also◌};
ghost use Rattle.c_typing.specs.Statements as spec;
ghost use Rattle.c_scopes.specs.Here.{here_of};
ghost use Rattle.c_objects.specs.Within.{within_of};
ghost use Rattle.c_statement_parts.specs.Left.{left};

use c_conversions::Told;
use c_names::NoMemory;
use c_objects::{Functions, value_at};
use c_scopes::{
    State, in_block, in_switch, leave, looped, plain, tell_label, with_item, with_label,
    with_labels, without_labels,
};
use c_statement_parts::{
    Walked, behind_block, behind_case, behind_default, behind_do, behind_else, behind_for,
    behind_if, behind_switch, behind_while, broken_out, case_value, continued, declared, evaluated,
    for_parts, returned,
};
use c_tree::syntax::{Expr, Start, Statement};
use c_tree::{At, Stat, TypedExpr};
use c_typing::Around;
use rtl_word::Word;
use sqlite_items::{Boxed, Items};
use std::alloc::Global;

/// Statements in order, to the end of the scope that they stand in.
#[cycle(statements)]
pub fn sequence<'a, W: Word>(
    alloc: Global,
    functions: &Functions<'_>,
    around: Around,
    told: &mut Told,
    state: State<'a>,
    list: &'a [Statement],
) -> Result<(Option<Items<Boxed<Stat>>>, State<'a>), NoMemory>
    requires { around.start ≤ length (here_of state).names }
    ensures tree { IfOk result (λ r. r.0 ≡ (spec.sequence (within_of W.BITS functions.now) around (here_of state.entry) (map (spec.walk (within_of W.BITS functions.now)) list.now)).tree) }
    ensures here { IfOk result (λ r. here_of r.1 ≡ left around.start (here_of state.entry) (spec.sequence (within_of W.BITS functions.now) around (here_of state.entry) (map (spec.walk (within_of W.BITS functions.now)) list.now)).here) }
    ensures told { OnOk result (told.new.first ≡ notes told.old.first (spec.sequence (within_of W.BITS functions.now) around (here_of state.entry) (map (spec.walk (within_of W.BITS functions.now)) list.now)).faults) }
{
    let mut state = state;
    let mut trees = Some(Items::new(alloc));
    for s in list {
        let r = statement::<W>(alloc, functions, around, told, state, s)?;
        let more = with_item(trees, r.0)?;
        state = r.1;
        trees = more;
    }
    let state = leave(state, around.start)?;
    Ok((trees, state))
}

/// A block, whose statements stand in a scope of their own.
#[cycle(statements)]
fn block<'a, W: Word>(
    alloc: Global,
    functions: &Functions<'_>,
    around: Around,
    told: &mut Told,
    state: State<'a>,
    list: &'a Items<Statement>,
    at: At,
) -> Result<Walked<'a>, NoMemory>
    ensures tree { IfOk result (λ r. r.0 ≡ (spec.walk (within_of W.BITS functions.now) (kind.Block at list.now) around (here_of state.entry)).tree) }
    ensures here { IfOk result (λ r. here_of r.1 ≡ (spec.walk (within_of W.BITS functions.now) (kind.Block at list.now) around (here_of state.entry)).here) }
    ensures told { OnOk result (told.new.first ≡ notes told.old.first (spec.walk (within_of W.BITS functions.now) (kind.Block at list.now) around (here_of state.entry)).faults) }
{
    let inner = in_block(around, &state);
    let (list, state) = sequence::<W>(alloc, functions, inner, told, state, list.as_slice())?;
    behind_block(alloc, at, list, state)
}

/// A value, and the statement that it decides on.
#[cycle(statements)]
fn guarded<'a, W: Word>(
    alloc: Global,
    functions: &Functions<'_>,
    around: Around,
    told: &mut Told,
    state: State<'a>,
    a: &'a Boxed<Statement>,
    e: &Expr,
) -> Result<(Option<Boxed<TypedExpr>>, Option<Boxed<Stat>>, State<'a>), NoMemory>
    ensures value { IfOk result (λ r. r.0 ≡ (spec.value_at (within_of W.BITS functions.now) (here_of state.entry) e.now).seen.tree) }
    ensures tree { IfOk result (λ r. r.1 ≡ (spec.walk (within_of W.BITS functions.now) a.now around (here_of state.entry)).tree) }
    ensures here { IfOk result (λ r. here_of r.2 ≡ (spec.walk (within_of W.BITS functions.now) a.now around (here_of state.entry)).here) }
    ensures told { OnOk result (told.new.first ≡ notes told.old.first ((spec.value_at (within_of W.BITS functions.now) (here_of state.entry) e.now).faults also (spec.walk (within_of W.BITS functions.now) a.now around (here_of state.entry)).faults)) }
{
    let e = value_at::<W>(alloc, functions, told, &state.names, e)?;
    let (a, state) = statement::<W>(alloc, functions, around, told, state, a.get())?;
    Ok((e.tree, a, state))
}

/// The `else` of an `if`.
#[cycle(statements)]
fn otherwise<'a, W: Word>(
    alloc: Global,
    functions: &Functions<'_>,
    around: Around,
    told: &mut Told,
    state: State<'a>,
    b: &'a Boxed<Statement>,
    at: At,
    e: Option<Boxed<TypedExpr>>,
    a: Option<Boxed<Stat>>,
) -> Result<Walked<'a>, NoMemory>
    ensures tree { IfOk result (λ r. r.0 ≡ three (spec.if_else_tree at) e a (spec.walk (within_of W.BITS functions.now) b.now around (here_of state.entry)).tree) }
    ensures here { IfOk result (λ r. here_of r.1 ≡ (spec.walk (within_of W.BITS functions.now) b.now around (here_of state.entry)).here) }
    ensures told { OnOk result (told.new.first ≡ notes told.old.first (spec.walk (within_of W.BITS functions.now) b.now around (here_of state.entry)).faults) }
{
    let (b, state) = statement::<W>(alloc, functions, around, told, state, b.get())?;
    behind_else(alloc, at, e, a, b, state)
}

/// A `do`.
#[cycle(statements)]
fn do_loop<'a, W: Word>(
    alloc: Global,
    functions: &Functions<'_>,
    around: Around,
    told: &mut Told,
    state: State<'a>,
    a: &'a Boxed<Statement>,
    e: &Expr,
    at: At,
) -> Result<Walked<'a>, NoMemory>
    ensures tree { IfOk result (λ r. r.0 ≡ (spec.walk (within_of W.BITS functions.now) (kind.DoWhile at a.now e.now) around (here_of state.entry)).tree) }
    ensures here { IfOk result (λ r. here_of r.1 ≡ (spec.walk (within_of W.BITS functions.now) (kind.DoWhile at a.now e.now) around (here_of state.entry)).here) }
    ensures told { OnOk result (told.new.first ≡ notes told.old.first (spec.walk (within_of W.BITS functions.now) (kind.DoWhile at a.now e.now) around (here_of state.entry)).faults) }
{
    let (a, state) = statement::<W>(alloc, functions, looped(around), told, state, a.get())?;
    behind_do::<W>(alloc, functions, told, at, a, e, state)
}

/// A `for`, which is a scope.
#[cycle(statements)]
fn for_loop<'a, W: Word>(
    alloc: Global,
    functions: &Functions<'_>,
    around: Around,
    told: &mut Told,
    state: State<'a>,
    a: &'a Boxed<Statement>,
    at: At,
    start: &'a Start,
    test: &Option<Expr>,
    step: &Option<Expr>,
) -> Result<Walked<'a>, NoMemory>
    ensures tree { IfOk result (λ r. r.0 ≡ (spec.walk (within_of W.BITS functions.now) (kind.For at start.now test.now step.now a.now) around (here_of state.entry)).tree) }
    ensures here { IfOk result (λ r. here_of r.1 ≡ (spec.walk (within_of W.BITS functions.now) (kind.For at start.now test.now step.now a.now) around (here_of state.entry)).here) }
    ensures told { OnOk result (told.new.first ≡ notes told.old.first (spec.walk (within_of W.BITS functions.now) (kind.For at start.now test.now step.now a.now) around (here_of state.entry)).faults) }
{
    let inner = in_block(around, &state);
    let (parts, state) = for_parts::<W>(alloc, functions, inner, told, state, start, test, step)?;
    let (a, state) = statement::<W>(alloc, functions, looped(around), told, state, a.get())?;
    behind_for(alloc, at, inner.start, parts, a, state)
}

/// A `switch`, whose block is a scope and has labels of its own.
#[cycle(statements)]
fn switch<'a, W: Word>(
    alloc: Global,
    functions: &Functions<'_>,
    around: Around,
    told: &mut Told,
    state: State<'a>,
    list: &'a Items<Statement>,
    at: At,
    e: &Expr,
) -> Result<Walked<'a>, NoMemory>
    ensures tree { IfOk result (λ r. r.0 ≡ (spec.walk (within_of W.BITS functions.now) (kind.Switch at e.now list.now) around (here_of state.entry)).tree) }
    ensures here { IfOk result (λ r. here_of r.1 ≡ (spec.walk (within_of W.BITS functions.now) (kind.Switch at e.now list.now) around (here_of state.entry)).here) }
    ensures told { OnOk result (told.new.first ≡ notes told.old.first (spec.walk (within_of W.BITS functions.now) (kind.Switch at e.now list.now) around (here_of state.entry)).faults) }
{
    let e = value_at::<W>(alloc, functions, told, &state.names, e)?;
    let (outer, own) = without_labels(alloc, state);
    let inner = in_switch(around, &own);
    let (list, own) = sequence::<W>(alloc, functions, inner, told, own, list.as_slice())?;
    behind_switch(alloc, at, e.tree, list, with_labels(own, outer))
}

/// A `case` and its statement.
#[cycle(statements)]
fn case<'a, W: Word>(
    alloc: Global,
    functions: &Functions<'_>,
    around: Around,
    told: &mut Told,
    state: State<'a>,
    a: &'a Boxed<Statement>,
    at: At,
    e: &Expr,
) -> Result<Walked<'a>, NoMemory>
    ensures tree { IfOk result (λ r. r.0 ≡ (spec.walk (within_of W.BITS functions.now) (kind.Case at e.now a.now) around (here_of state.entry)).tree) }
    ensures here { IfOk result (λ r. here_of r.1 ≡ (spec.walk (within_of W.BITS functions.now) (kind.Case at e.now a.now) around (here_of state.entry)).here) }
    ensures told { OnOk result (told.new.first ≡ notes told.old.first (spec.walk (within_of W.BITS functions.now) (kind.Case at e.now a.now) around (here_of state.entry)).faults) }
{
    let (value, state) = case_value::<W>(alloc, functions, around, told, state, at, e)?;
    let (a, state) = statement::<W>(alloc, functions, around, told, state, a.get())?;
    behind_case(alloc, around, at, value, a, state)
}

/// A `default` and its statement.
#[cycle(statements)]
fn default<'a, W: Word>(
    alloc: Global,
    functions: &Functions<'_>,
    around: Around,
    told: &mut Told,
    state: State<'a>,
    a: &'a Boxed<Statement>,
    at: At,
) -> Result<Walked<'a>, NoMemory>
    ensures tree { IfOk result (λ r. r.0 ≡ (spec.walk (within_of W.BITS functions.now) (kind.Default at a.now) around (here_of state.entry)).tree) }
    ensures here { IfOk result (λ r. here_of r.1 ≡ (spec.walk (within_of W.BITS functions.now) (kind.Default at a.now) around (here_of state.entry)).here) }
    ensures told { OnOk result (told.new.first ≡ notes told.old.first (spec.walk (within_of W.BITS functions.now) (kind.Default at a.now) around (here_of state.entry)).faults) }
{
    tell_label(told, around, &state, at, at, None);
    let state = with_label(around, state, None)?;
    let (a, state) = statement::<W>(alloc, functions, around, told, state, a.get())?;
    behind_default(alloc, around, at, a, state)
}

/// A statement. The first fault is told.
#[cycle(statements)]
fn statement<'a, W: Word>(
    alloc: Global,
    functions: &Functions<'_>,
    around: Around,
    told: &mut Told,
    state: State<'a>,
    s: &'a Statement,
) -> Result<Walked<'a>, NoMemory>
    ensures tree { IfOk result (λ r. r.0 ≡ (spec.walk (within_of W.BITS functions.now) s.now around (here_of state.entry)).tree) }
    ensures here { IfOk result (λ r. here_of r.1 ≡ (spec.walk (within_of W.BITS functions.now) s.now around (here_of state.entry)).here) }
    ensures told { OnOk result (told.new.first ≡ notes told.old.first (spec.walk (within_of W.BITS functions.now) s.now around (here_of state.entry)).faults) }
{
    match s {
        Statement::Block(at, list) => block::<W>(alloc, functions, around, told, state, list, *at),
        Statement::Declared(d) => declared::<W>(alloc, functions, around, told, state, d),
        Statement::Evaluate(at, e) => evaluated::<W>(alloc, functions, told, state, *at, e),
        Statement::If(at, e, a, other) => {
            let around = plain(around);
            let (e, a, state) = guarded::<W>(alloc, functions, around, told, state, a, e)?;
            match other {
                None => behind_if(alloc, *at, e, a, state),
                Some(b) => otherwise::<W>(alloc, functions, around, told, state, b, *at, e, a),
            }
        }
        Statement::While(at, e, a) => {
            let (e, a, state) = guarded::<W>(alloc, functions, looped(around), told, state, a, e)?;
            behind_while(alloc, *at, e, a, state)
        }
        Statement::DoWhile(at, a, e) => do_loop::<W>(
            alloc, functions, around, told, state, a, e, *at,
        ),
        Statement::For(at, start, test, step, a) => for_loop::<W>(
            alloc, functions, around, told, state, a, *at, start, test, step,
        ),
        Statement::Switch(at, e, list) => switch::<W>(
            alloc, functions, around, told, state, list, *at, e,
        ),
        Statement::Case(at, e, a) => case::<W>(alloc, functions, around, told, state, a, *at, e),
        Statement::Default(at, a) => default::<W>(alloc, functions, around, told, state, a, *at),
        Statement::Break(at) => broken_out(alloc, around, told, *at, state),
        Statement::Continue(at) => continued(alloc, around, told, *at, state),
        Statement::Return(at, e) => returned::<W>(alloc, functions, around, told, state, *at, e),
    }
}

//! Statements without statements in them, and what is done behind those that have some.

ghost use Rattle.std.specs.Prelude.{◌≡◌, ◌≤◌, length, Some, None, not, IfOk, OnOk};
ghost use Rattle.c_tree.specs.declared.typed.Stat.TheVariants as stat;
ghost use Rattle.c_typing.specs.Faults.{notes, ◌also◌};
ghost use Rattle.c_typing.specs.Expressions.{broken_if, one, two, three};
ghost use Rattle.c_typing.specs.Statements as spec;
ghost use Rattle.c_scopes.specs.Here.{here_of};
ghost use Rattle.c_objects.specs.Within.{within_of};
ghost use Rattle.c_statement_parts.specs.Left.{left};

use c_conversions::Told;
use c_names::NoMemory;
use c_nodes::statements as nodes;
use c_nodes::statements::ForParts;
use c_objects::{Functions, constant_of, expression_at, locals_of, tell_unless, value_at};
use c_scopes::{State, leave, tell_case, with_case};
use c_tree::syntax::{Declaration, Expr};
use c_tree::{At, Stat, TypedExpr};
use c_typing::Around;
use rtl_word::Word;
use sqlite_items::{Boxed, Items};
use std::alloc::Global;

/// A typed statement, where it is sound, and the state behind it.
pub type Walked<'a> = (Option<Boxed<Stat>>, State<'a>);

pub fn declared<'a, W: Word>(
    alloc: Global,
    functions: &Functions<'_>,
    around: Around,
    told: &mut Told,
    state: State<'a>,
    d: &'a Declaration,
) -> Result<Walked<'a>, NoMemory>
    ensures tree { IfOk result (λ r. r.0 ≡ (spec.declared (within_of W.BITS functions.now) around (here_of state.entry) d.now).tree) }
    ensures here { IfOk result (λ r. here_of r.1 ≡ (spec.declared (within_of W.BITS functions.now) around (here_of state.entry) d.now).here) }
    ensures told { OnOk result (told.new.first ≡ notes told.old.first (spec.declared (within_of W.BITS functions.now) around (here_of state.entry) d.now).faults) }
{
    let (at, list, state) = locals_of::<W>(alloc, functions, around, told, state, d)?;
    Ok((nodes::declare(alloc, at, list)?, state))
}

fn evaluated_tree<W: Word>(
    alloc: Global,
    functions: &Functions<'_>,
    told: &mut Told,
    state: &State<'_>,
    at: At,
    e: &Option<Expr>,
) -> Result<Option<Boxed<Stat>>, NoMemory>
    ensures tree { IfOk result (λ t. t ≡ (spec.evaluated (within_of W.BITS functions.now) (here_of state.now) at e.now).tree) }
    ensures told { OnOk result (told.new.first ≡ notes told.old.first (spec.evaluated (within_of W.BITS functions.now) (here_of state.now) at e.now).faults) }
{
    match e {
        None => nodes::null(alloc, at),
        Some(e) => {
            let a = expression_at::<W>(alloc, functions, told, &state.names, e)?;
            nodes::evaluate(alloc, at, a.tree)
        }
    }
}

pub fn evaluated<'a, W: Word>(
    alloc: Global,
    functions: &Functions<'_>,
    told: &mut Told,
    state: State<'a>,
    at: At,
    e: &Option<Expr>,
) -> Result<Walked<'a>, NoMemory>
    ensures tree { IfOk result (λ r. r.0 ≡ (spec.evaluated (within_of W.BITS functions.now) (here_of state.entry) at e.now).tree) }
    ensures here { IfOk result (λ r. here_of r.1 ≡ here_of state.entry) }
    ensures told { OnOk result (told.new.first ≡ notes told.old.first (spec.evaluated (within_of W.BITS functions.now) (here_of state.entry) at e.now).faults) }
{
    let tree = evaluated_tree::<W>(alloc, functions, told, &state, at, e)?;
    Ok((tree, state))
}

fn returned_tree<W: Word>(
    alloc: Global,
    functions: &Functions<'_>,
    around: Around,
    told: &mut Told,
    state: &State<'_>,
    at: At,
    e: &Option<Expr>,
) -> Result<Option<Boxed<Stat>>, NoMemory>
    ensures tree { IfOk result (λ t. t ≡ (spec.returned (within_of W.BITS functions.now) around (here_of state.now) at e.now).tree) }
    ensures told { OnOk result (told.new.first ≡ notes told.old.first (spec.returned (within_of W.BITS functions.now) around (here_of state.now) at e.now).faults) }
{
    match e {
        None => {
            let wrong = nodes::returns_wrong(around.result, false);
            told.tell_if(wrong, 30, at);
            nodes::return_nothing(alloc, wrong, at)
        }
        Some(e) => {
            let wrong = nodes::returns_wrong(around.result, true);
            told.tell_if(wrong, 30, at);
            let a = value_at::<W>(alloc, functions, told, &state.names, e)?;
            nodes::return_value(alloc, wrong, at, around.result, a.tree)
        }
    }
}

pub fn returned<'a, W: Word>(
    alloc: Global,
    functions: &Functions<'_>,
    around: Around,
    told: &mut Told,
    state: State<'a>,
    at: At,
    e: &Option<Expr>,
) -> Result<Walked<'a>, NoMemory>
    ensures tree { IfOk result (λ r. r.0 ≡ (spec.returned (within_of W.BITS functions.now) around (here_of state.entry) at e.now).tree) }
    ensures here { IfOk result (λ r. here_of r.1 ≡ here_of state.entry) }
    ensures told { OnOk result (told.new.first ≡ notes told.old.first (spec.returned (within_of W.BITS functions.now) around (here_of state.entry) at e.now).faults) }
{
    let tree = returned_tree::<W>(alloc, functions, around, told, &state, at, e)?;
    Ok((tree, state))
}

/// The value of a case, which is a label from here on.
pub fn case_value<'a, W: Word>(
    alloc: Global,
    functions: &Functions<'_>,
    around: Around,
    told: &mut Told,
    state: State<'a>,
    at: At,
    e: &Expr,
) -> Result<(Option<u32>, State<'a>), NoMemory>
    ensures value { IfOk result (λ r. r.0 ≡ spec.constant_of W.BITS (spec.expression_at (within_of W.BITS functions.now) (here_of state.entry) e.now).seen.tree) }
    ensures here { IfOk result (λ r. here_of r.1 ≡ spec.with_case around (here_of state.entry) (spec.constant_of W.BITS (spec.expression_at (within_of W.BITS functions.now) (here_of state.entry) e.now).seen.tree)) }
    ensures told { OnOk result (told.new.first ≡ notes told.old.first
        (let j = spec.expression_at (within_of W.BITS functions.now) (here_of state.entry) e.now in let v = spec.constant_of W.BITS j.seen.tree in
        j.faults also spec.faulty_unless v j.seen.tree 18 j.seen.at also spec.case_faults around (here_of state.entry) at j.seen.at v)) }
{
    let a = expression_at::<W>(alloc, functions, told, &state.names, e)?;
    let value = constant_of::<W>(&a.tree);
    tell_unless(told, value, &a.tree, 18, a.at);
    tell_case(told, around, &state, at, a.at, value);
    let state = with_case(around, state, value)?;
    Ok((value, state))
}

pub fn behind_block<'a>(
    alloc: Global,
    at: At,
    list: Option<Items<Boxed<Stat>>>,
    state: State<'a>,
) -> Result<Walked<'a>, NoMemory>
    ensures tree { IfOk result (λ r. r.0 ≡ one (stat.Block at) list) }
    ensures here { IfOk result (λ r. here_of r.1 ≡ here_of state.entry) }
{
    Ok((nodes::block(alloc, at, list)?, state))
}

pub fn behind_if<'a>(
    alloc: Global,
    at: At,
    e: Option<Boxed<TypedExpr>>,
    a: Option<Boxed<Stat>>,
    state: State<'a>,
) -> Result<Walked<'a>, NoMemory>
    ensures tree { IfOk result (λ r. r.0 ≡ two (spec.if_tree at) e a) }
    ensures here { IfOk result (λ r. here_of r.1 ≡ here_of state.entry) }
{
    Ok((nodes::if_alone(alloc, at, e, a)?, state))
}

pub fn behind_else<'a>(
    alloc: Global,
    at: At,
    e: Option<Boxed<TypedExpr>>,
    a: Option<Boxed<Stat>>,
    b: Option<Boxed<Stat>>,
    state: State<'a>,
) -> Result<Walked<'a>, NoMemory>
    ensures tree { IfOk result (λ r. r.0 ≡ three (spec.if_else_tree at) e a b) }
    ensures here { IfOk result (λ r. here_of r.1 ≡ here_of state.entry) }
{
    Ok((nodes::if_else(alloc, at, e, a, b)?, state))
}

pub fn behind_while<'a>(
    alloc: Global,
    at: At,
    e: Option<Boxed<TypedExpr>>,
    a: Option<Boxed<Stat>>,
    state: State<'a>,
) -> Result<Walked<'a>, NoMemory>
    ensures tree { IfOk result (λ r. r.0 ≡ two (stat.While at) e a) }
    ensures here { IfOk result (λ r. here_of r.1 ≡ here_of state.entry) }
{
    Ok((nodes::while_loop(alloc, at, e, a)?, state))
}

/// The test of a `do`, behind its body.
pub fn behind_do<'a, W: Word>(
    alloc: Global,
    functions: &Functions<'_>,
    told: &mut Told,
    at: At,
    a: Option<Boxed<Stat>>,
    e: &Expr,
    state: State<'a>,
) -> Result<Walked<'a>, NoMemory>
    ensures tree { IfOk result (λ r. r.0 ≡ two (spec.do_tree at) (spec.value_at (within_of W.BITS functions.now) (here_of state.entry) e.now).seen.tree a) }
    ensures here { IfOk result (λ r. here_of r.1 ≡ here_of state.entry) }
    ensures told { OnOk result (told.new.first ≡ notes told.old.first (spec.value_at (within_of W.BITS functions.now) (here_of state.entry) e.now).faults) }
{
    let e = value_at::<W>(alloc, functions, told, &state.names, e)?;
    Ok((nodes::do_loop(alloc, at, e.tree, a)?, state))
}

/// Leaves the scope of a `for`, which began behind so many names.
pub fn behind_for<'a>(
    alloc: Global,
    at: At,
    start: usize,
    parts: Option<ForParts>,
    a: Option<Boxed<Stat>>,
    state: State<'a>,
) -> Result<Walked<'a>, NoMemory>
    requires { start ≤ length state.names.entries.items }
    ensures tree { IfOk result (λ r. r.0 ≡ two (spec.for_tree at) parts a) }
    ensures here { IfOk result (λ r. here_of r.1 ≡ left start (here_of state.entry) (here_of state.entry)) }
{
    let state = leave(state, start)?;
    Ok((nodes::for_loop(alloc, at, parts, a)?, state))
}

pub fn behind_switch<'a>(
    alloc: Global,
    at: At,
    e: Option<Boxed<TypedExpr>>,
    list: Option<Items<Boxed<Stat>>>,
    state: State<'a>,
) -> Result<Walked<'a>, NoMemory>
    ensures tree { IfOk result (λ r. r.0 ≡ two (spec.switch_tree at) e list) }
    ensures here { IfOk result (λ r. here_of r.1 ≡ here_of state.entry) }
{
    Ok((nodes::switch(alloc, at, e, list)?, state))
}

pub fn behind_case<'a>(
    alloc: Global,
    around: Around,
    at: At,
    value: Option<u32>,
    a: Option<Boxed<Stat>>,
    state: State<'a>,
) -> Result<Walked<'a>, NoMemory>
    ensures tree { IfOk result (λ r. r.0 ≡ spec.kept_if around.labels_stand (two (spec.case_tree at) value a)) }
    ensures here { IfOk result (λ r. here_of r.1 ≡ here_of state.entry) }
{
    Ok((
        nodes::case(alloc, around.labels_stand, at, value, a)?,
        state,
    ))
}

pub fn behind_default<'a>(
    alloc: Global,
    around: Around,
    at: At,
    a: Option<Boxed<Stat>>,
    state: State<'a>,
) -> Result<Walked<'a>, NoMemory>
    ensures tree { IfOk result (λ r. r.0 ≡ spec.kept_if around.labels_stand (one (stat.Default at) a)) }
    ensures here { IfOk result (λ r. here_of r.1 ≡ here_of state.entry) }
{
    Ok((nodes::default(alloc, around.labels_stand, at, a)?, state))
}

pub fn broken_out<'a>(
    alloc: Global,
    around: Around,
    told: &mut Told,
    at: At,
    state: State<'a>,
) -> Result<Walked<'a>, NoMemory>
    ensures tree { IfOk result (λ r. r.0 ≡ spec.kept_if around.breaks (Some (stat.Break at))) }
    ensures here { IfOk result (λ r. here_of r.1 ≡ here_of state.entry) }
    ensures told { OnOk result (told.new.first ≡ notes told.old.first (broken_if (not around.breaks) 26 at)) }
{
    told.tell_if(!around.breaks, 26, at);
    Ok((nodes::break_out(alloc, around.breaks, at)?, state))
}

pub fn continued<'a>(
    alloc: Global,
    around: Around,
    told: &mut Told,
    at: At,
    state: State<'a>,
) -> Result<Walked<'a>, NoMemory>
    ensures tree { IfOk result (λ r. r.0 ≡ spec.kept_if around.loops (Some (stat.Continue at))) }
    ensures here { IfOk result (λ r. here_of r.1 ≡ here_of state.entry) }
    ensures told { OnOk result (told.new.first ≡ notes told.old.first (broken_if (not around.loops) 27 at)) }
{
    told.tell_if(!around.loops, 27, at);
    Ok((nodes::continue_on(alloc, around.loops, at)?, state))
}

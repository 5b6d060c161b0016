//! Statements (C11 6.8).

ghost use Rattle.std.specs.Prelude.{◌≡◌, ◌+◌, ◌<◌, ◌^◌, [], ◌∷◌, IfOk, OnOk, Some, map, max};
ghost use Rattle.c_limits.specs.Depths.{depth_of, greatest_in, in_block, in_option, in_start};
ghost use Rattle.naive_code.specs.Statements as code;
ghost use Rattle.naive_code.specs.Statements.{steps_of};
ghost use Rattle.naive_code.specs.Expressions.{naive};
ghost use Rattle.naive_code.specs.Operations as operation;
ghost use Rattle.naive_expr.specs.Seen.{site_of, stop_of};
ghost use Rattle.naive_expr.specs.Emitted.{Adds};
ghost use Rattle.naive_stat.specs.Cases.{cases_of, placed};
ghost use Rattle.naive_stat.specs.Runs.{Runs, around_of, block_steps};

use crate::cases::{Case, push_dispatch, values_in};
use crate::declarations::{expand_locals, expand_start};
use crate::optional::{expand_optional, expand_optional_test};
use c_tree::typed::Start;
use c_tree::{Object, Stat, TypedExpr};
use naive_expr::{Emitter, Jump, Op, Site, Stop, expand_test, expand_value};
use rtl_tree::NoMemory;
use sqlite_items::{Boxed, Items};
use std::alloc::Global;

/// The labels to which `break` and `continue` lead.
#[derive(Clone, Copy, Debug, PartialEq, Eq)]
pub struct Around {
    pub breaks: u32,
    pub continues: u32,
}

/// What ends the open block, and leaves a block behind it.
fn leave(out: &mut Emitter, stop: Stop) -> Result<(), NoMemory>
    ensures { OnOk result (Adds out.old out.new (operation.Close (stop_of stop) out.old.next_label ∷ []) [] 0 1) }
{
    let label = out.take_labels(1)?;
    out.close(stop, label)
}

fn expand_return(
    alloc: Global,
    site: &Site,
    locals: &[Object],
    out: &mut Emitter,
    e: &Option<TypedExpr>,
) -> Result<(), NoMemory>
    requires { 8 + in_option depth_of e.now < 2 ^ 16 }
    ensures { OnOk result ((a : code.Around) → Runs out.old out.new (code.return_steps (site_of site.now) locals.now e.now) a) }
{
    match e {
        None => leave(out, Stop::Returns),
        Some(e) => {
            let value = expand_value(alloc, site, out, e, 0)?;
            out.emit(Op::SetResult(value))?;
            leave(out, Stop::Returns)
        }
    }
}

/// The statements of a block; the cases that stand in it.
#[cycle(statements)]
fn sequence(
    alloc: Global,
    site: &Site,
    locals: &[Object],
    out: &mut Emitter,
    around: Around,
    ss: &[Boxed<Stat>],
) -> Result<Items<Case>, NoMemory>
    requires { 8 + in_block depth_of ss.now < 2 ^ 16 }
    ensures steps { OnOk result (Runs out.old out.new (block_steps (site_of site.now) locals.now ss.now) (around_of around)) }
    ensures cases { IfOk result (λ cs. cases_of cs ≡ placed out.old.next_label (block_steps (site_of site.now) locals.now ss.now).cases) }
{
    let mut cases = Items::new(alloc);
    for s in ss {
        let more = expand_stat(alloc, site, locals, out, around, s.get())?;
        cases.append(more)?;
    }
    Ok(cases)
}

/// A statement; the cases that a switch around it sees in it.
#[cycle(statements)]
pub(crate) fn expand_stat(
    alloc: Global,
    site: &Site,
    locals: &[Object],
    out: &mut Emitter,
    around: Around,
    s: &Stat,
) -> Result<Items<Case>, NoMemory>
    requires { 8 + greatest_in depth_of s.now < 2 ^ 16 }
    ensures steps { OnOk result (Runs out.old out.new (steps_of (site_of site.now) locals.now s.now) (around_of around)) }
    ensures cases { IfOk result (λ cs. cases_of cs ≡ placed out.old.next_label (steps_of (site_of site.now) locals.now s.now).cases) }
{
    match s {
        Stat::Block(_, ss) => {
            sequence(alloc, site, locals, out, around, ss.as_slice())?;
            Ok(Items::new(alloc))
        }
        Stat::Declare(_, declared) => {
            expand_locals(alloc, site, locals, out, declared.as_slice())?;
            Ok(Items::new(alloc))
        }
        Stat::Evaluate(_, e) => {
            expand_optional(alloc, site, locals, out, e)?;
            Ok(Items::new(alloc))
        }
        Stat::If(_, e, a, other) => match other {
            None => {
                choose_one(alloc, site, locals, out, around, e, a.get())?;
                Ok(Items::new(alloc))
            }
            Some(b) => {
                choose_between(alloc, site, locals, out, around, e, a.get(), b.get())?;
                Ok(Items::new(alloc))
            }
        },
        Stat::While(_, e, a) => {
            while_loop(alloc, site, locals, out, e, a.get())?;
            Ok(Items::new(alloc))
        }
        Stat::DoWhile(_, a, e) => {
            do_loop(alloc, site, locals, out, a.get(), e)?;
            Ok(Items::new(alloc))
        }
        Stat::For(_, first, test, step, a) => {
            for_loop(alloc, site, locals, out, first, test, step, a.get())?;
            Ok(Items::new(alloc))
        }
        Stat::Switch(_, e, ss) => {
            switch(alloc, site, locals, out, around, ss, e)?;
            Ok(Items::new(alloc))
        }
        Stat::Case(_, v, a) => labelled(alloc, site, locals, out, around, Some(*v), a.get()),
        Stat::Default(_, a) => labelled(alloc, site, locals, out, around, None, a.get()),
        Stat::Break(_) => {
            leave(out, Stop::Jumps(around.breaks))?;
            Ok(Items::new(alloc))
        }
        Stat::Continue(_) => {
            leave(out, Stop::Jumps(around.continues))?;
            Ok(Items::new(alloc))
        }
        Stat::Return(_, e) => {
            expand_return(alloc, site, locals, out, e)?;
            Ok(Items::new(alloc))
        }
    }
}

#[cycle(statements)]
fn choose_one(
    alloc: Global,
    site: &Site,
    locals: &[Object],
    out: &mut Emitter,
    around: Around,
    e: &TypedExpr,
    a: &Stat,
) -> Result<(), NoMemory>
    requires test { 8 + depth_of e.now < 2 ^ 16 }
    requires first { 8 + greatest_in depth_of a.now < 2 ^ 16 }
    ensures { OnOk result (Runs out.old out.new (code.if_steps (site_of site.now) locals.now (naive (site_of site.now) e.now).test (steps_of (site_of site.now) locals.now a.now) None) (around_of around)) }
{
    let label = out.take_labels(2)?;
    let jump = Jump {
        sense: false,
        target: label,
        next: label + 1,
    };
    expand_test(alloc, site, out, e, jump, 0)?;
    expand_stat(alloc, site, locals, out, around, a)?;
    out.close(Stop::Falls, label)
}

#[cycle(statements)]
fn choose_between(
    alloc: Global,
    site: &Site,
    locals: &[Object],
    out: &mut Emitter,
    around: Around,
    e: &TypedExpr,
    a: &Stat,
    b: &Stat,
) -> Result<(), NoMemory>
    requires test { 8 + depth_of e.now < 2 ^ 16 }
    requires first { 8 + greatest_in depth_of a.now < 2 ^ 16 }
    requires second { 8 + greatest_in depth_of b.now < 2 ^ 16 }
    ensures { OnOk result (Runs out.old out.new (code.if_steps (site_of site.now) locals.now (naive (site_of site.now) e.now).test (steps_of (site_of site.now) locals.now a.now) (Some (steps_of (site_of site.now) locals.now b.now))) (around_of around)) }
{
    let label = out.take_labels(3)?;
    let jump = Jump {
        sense: false,
        target: label,
        next: label + 1,
    };
    expand_test(alloc, site, out, e, jump, 0)?;
    expand_stat(alloc, site, locals, out, around, a)?;
    out.close(Stop::Jumps(label + 2), label)?;
    expand_stat(alloc, site, locals, out, around, b)?;
    out.close(Stop::Falls, label + 2)
}

#[cycle(statements)]
fn while_loop(
    alloc: Global,
    site: &Site,
    locals: &[Object],
    out: &mut Emitter,
    e: &TypedExpr,
    a: &Stat,
) -> Result<(), NoMemory>
    requires test { 8 + depth_of e.now < 2 ^ 16 }
    requires body { 8 + greatest_in depth_of a.now < 2 ^ 16 }
    ensures { OnOk result ((around : code.Around) → Runs out.old out.new (code.while_steps (site_of site.now) locals.now (naive (site_of site.now) e.now).test (steps_of (site_of site.now) locals.now a.now)) around) }
{
    let label = out.take_labels(3)?;
    let inner = Around {
        breaks: label,
        continues: label + 1,
    };
    let jump = Jump {
        sense: false,
        target: label,
        next: label + 2,
    };
    out.close(Stop::Falls, label + 1)?;
    expand_test(alloc, site, out, e, jump, 0)?;
    expand_stat(alloc, site, locals, out, inner, a)?;
    out.close(Stop::Jumps(label + 1), label)
}

#[cycle(statements)]
fn do_loop(
    alloc: Global,
    site: &Site,
    locals: &[Object],
    out: &mut Emitter,
    a: &Stat,
    e: &TypedExpr,
) -> Result<(), NoMemory>
    requires test { 8 + depth_of e.now < 2 ^ 16 }
    requires body { 8 + greatest_in depth_of a.now < 2 ^ 16 }
    ensures { OnOk result ((around : code.Around) → Runs out.old out.new (code.do_steps (site_of site.now) locals.now (steps_of (site_of site.now) locals.now a.now) (naive (site_of site.now) e.now).test) around) }
{
    let label = out.take_labels(3)?;
    let inner = Around {
        breaks: label,
        continues: label + 2,
    };
    let jump = Jump {
        sense: true,
        target: label + 1,
        next: label,
    };
    out.close(Stop::Falls, label + 1)?;
    expand_stat(alloc, site, locals, out, inner, a)?;
    out.close(Stop::Falls, label + 2)?;
    expand_test(alloc, site, out, e, jump, 0)
}

#[cycle(statements)]
fn for_loop(
    alloc: Global,
    site: &Site,
    locals: &[Object],
    out: &mut Emitter,
    first: &Start,
    test: &Option<TypedExpr>,
    step: &Option<TypedExpr>,
    a: &Stat,
) -> Result<(), NoMemory>
    requires first { 8 + in_start depth_of first.now < 2 ^ 16 }
    requires test { 8 + in_option depth_of test.now < 2 ^ 16 }
    requires step { 8 + in_option depth_of step.now < 2 ^ 16 }
    requires body { 8 + greatest_in depth_of a.now < 2 ^ 16 }
    ensures { OnOk result ((around : code.Around) → Runs out.old out.new (code.for_steps (site_of site.now) locals.now (code.started (site_of site.now) locals.now first.now) (code.test_in (site_of site.now) locals.now test.now) (code.evaluated (site_of site.now) locals.now step.now) (steps_of (site_of site.now) locals.now a.now)) around) }
{
    let label = out.take_labels(4)?;
    let inner = Around {
        breaks: label,
        continues: label + 3,
    };
    let jump = Jump {
        sense: false,
        target: label,
        next: label + 2,
    };
    expand_start(alloc, site, locals, out, first)?;
    out.close(Stop::Falls, label + 1)?;
    expand_optional_test(alloc, site, locals, out, test, jump)?;
    expand_stat(alloc, site, locals, out, inner, a)?;
    out.close(Stop::Falls, label + 3)?;
    expand_optional(alloc, site, locals, out, step)?;
    out.close(Stop::Jumps(label + 1), label)
}

/// The code of the block is made apart, since the comparisons before it go by the labels of the cases in it.
#[cycle(statements)]
fn switch(
    alloc: Global,
    site: &Site,
    locals: &[Object],
    out: &mut Emitter,
    around: Around,
    list: &Items<Boxed<Stat>>,
    e: &TypedExpr,
) -> Result<(), NoMemory>
    requires { 8 + max (in_block depth_of list.now) (depth_of e.now) < 2 ^ 16 }
    ensures { OnOk result (Runs out.old out.new (code.switch_steps (site_of site.now) locals.now (naive (site_of site.now) e.now).value (block_steps (site_of site.now) locals.now list.now)) (around_of around)) }
{
    let ss = list.as_slice();
    let count = values_in(ss)?;
    let label = out.take_labels(2)?;
    let first = out.take_labels(u32::from(count))?;
    let value = expand_value(alloc, site, out, e, 0)?;
    let temp = out.fresh_equal(1, count)?;
    let inner = Around {
        breaks: label,
        continues: around.continues,
    };
    let mut body = out.behind(alloc);
    let cases = sequence(alloc, site, locals, &mut body, inner, ss)?;
    push_dispatch(out, value, temp, first, cases.as_slice(), label)?;
    out.append(body)?;
    out.close(Stop::Falls, label)
}

/// A labelled statement begins a block.
#[cycle(statements)]
fn labelled(
    alloc: Global,
    site: &Site,
    locals: &[Object],
    out: &mut Emitter,
    around: Around,
    value: Option<u32>,
    a: &Stat,
) -> Result<Items<Case>, NoMemory>
    requires { 8 + greatest_in depth_of a.now < 2 ^ 16 }
    ensures steps { OnOk result (Runs out.old out.new (code.labelled (site_of site.now) locals.now value (steps_of (site_of site.now) locals.now a.now)) (around_of around)) }
    ensures cases { IfOk result (λ cs. cases_of cs ≡ placed out.old.next_label (code.labelled (site_of site.now) locals.now value (steps_of (site_of site.now) locals.now a.now)).cases) }
{
    let label = out.take_labels(1)?;
    out.close(Stop::Falls, label)?;
    let mut cases = Items::new(alloc);
    cases.push(Case { value, label })?;
    let more = expand_stat(alloc, site, locals, out, around, a)?;
    cases.append(more)?;
    Ok(cases)
}

//! The operators of statements, functions and whole trees.

ghost use Rattle.std.specs.Prelude.{◌≡◌, OnOk, IfErr};
ghost use Rattle.c_typing.specs.Faults.{notes};
ghost use Rattle.c_lacks.specs.Operators.{has_in};
ghost use Rattle.c_lacks.specs.Lacks.{block_lacks, else_lacks, functions_lack, init_lacks, locals_lack, option_lacks, start_lacks, statement_lacks, tree_lacks, IsSound, IsToldOf};

use crate::expressions::{expression, list};
use c_conversions::Told;
use c_tree::typed::{Local, LocalInit, Start};
use c_tree::{Function, Stat, Typed, TypedExpr};
use c_typing::{first_is_told, none_is_told};
use md_check::OpSet;
use sqlite_items::Boxed;
use vp_io::Reason;

fn option(told: &mut Told, set: OpSet, e: &Option<TypedExpr>)
    ensures { told.new.first ≡ notes told.old.first (option_lacks (has_in set.covered) e.now) }
{
    match e {
        None => {}
        Some(e) => {
            expression(told, set, e);
        }
    }
}

fn init(told: &mut Told, set: OpSet, init: &LocalInit)
    ensures { told.new.first ≡ notes told.old.first (init_lacks (has_in set.covered) init.now) }
{
    match init {
        LocalInit::Absent => {}
        LocalInit::Value(e) => {
            expression(told, set, e);
        }
        LocalInit::List(es) => list(told, set, es.as_slice()),
    }
}

fn locals(told: &mut Told, set: OpSet, declared: &[Local])
    ensures { told.new.first ≡ notes told.old.first (locals_lack (has_in set.covered) declared.now) }
{
    for l in declared {
        init(told, set, &l.init);
    }
}

fn start(told: &mut Told, set: OpSet, start: &Start)
    ensures { told.new.first ≡ notes told.old.first (start_lacks (has_in set.covered) start.now) }
{
    match start {
        Start::Absent => {}
        Start::Value(e) => {
            expression(told, set, e);
        }
        Start::Declared(_, declared) => locals(told, set, declared.as_slice()),
    }
}

#[cycle(statements)]
fn block(told: &mut Told, set: OpSet, ss: &[Boxed<Stat>])
    ensures { told.new.first ≡ notes told.old.first (block_lacks (has_in set.covered) ss.now) }
{
    for s in ss {
        statement(told, set, s.get());
    }
}

#[cycle(statements)]
fn otherwise(told: &mut Told, set: OpSet, s: &Option<Boxed<Stat>>)
    ensures { told.new.first ≡ notes told.old.first (else_lacks (has_in set.covered) s.now) }
{
    match s {
        None => {}
        Some(s) => statement(told, set, s.get()),
    }
}

#[cycle(statements)]
fn statement(told: &mut Told, set: OpSet, s: &Stat)
    ensures { told.new.first ≡ notes told.old.first (statement_lacks (has_in set.covered) s.now) }
{
    match s {
        Stat::Block(_, ss) => block(told, set, ss.as_slice()),
        Stat::Declare(_, declared) => locals(told, set, declared.as_slice()),
        Stat::Evaluate(_, e) => option(told, set, e),
        Stat::If(_, e, a, b) => {
            expression(told, set, e);
            statement(told, set, a.get());
            otherwise(told, set, b);
        }
        Stat::While(_, e, a) => {
            expression(told, set, e);
            statement(told, set, a.get());
        }
        Stat::DoWhile(_, a, e) => {
            statement(told, set, a.get());
            expression(told, set, e);
        }
        Stat::For(_, first, test, step, a) => {
            start(told, set, first);
            option(told, set, test);
            option(told, set, step);
            statement(told, set, a.get());
        }
        Stat::Switch(_, e, ss) => {
            block(told, set, ss.as_slice());
            expression(told, set, e);
        }
        Stat::Case(_, _, a) => statement(told, set, a.get()),
        Stat::Default(_, a) => statement(told, set, a.get()),
        Stat::Break(_) => {}
        Stat::Continue(_) => {}
        Stat::Return(_, e) => option(told, set, e),
    }
}

fn functions(told: &mut Told, set: OpSet, functions: &[Function])
    ensures { told.new.first ≡ notes told.old.first (functions_lack (has_in set.covered) functions.now) }
{
    for f in functions {
        statement(told, set, f.body.get());
    }
}

/// Whether the operators of a tree are all in the set, but for those that each description has; else the first place of an expression
/// whose operator isn't (rule 51).
pub fn lacks(t: &Typed, set: OpSet) -> Result<(), Reason>
    ensures there { OnOk result (IsSound (tree_lacks (has_in set.covered) t.now)) }
    ensures lacking { IfErr result (IsToldOf (tree_lacks (has_in set.covered) t.now)) }
{
    first_is_told();
    none_is_told();
    let mut told = Told { first: None };
    functions(&mut told, set, t.functions.as_slice());
    match told.first {
        None => Ok(()),
        Some(fault) => Err(Reason {
            line: fault.at.line,
            column: fault.at.column,
            rule: fault.rule,
            detail: 0,
        }),
    }
}

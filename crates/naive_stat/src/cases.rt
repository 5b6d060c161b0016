//! The cases of a switch.

ghost use Rattle.std.specs.Prelude.{◌≡◌, ◌+◌, ◌<◌, ◌^◌, List, [], ◌∷◌, ◌++◌, IfOk, OnOk};
ghost use Rattle.naive_code.specs.Operations as operation;
ghost use Rattle.naive_code.specs.Statements.{steps_of, valued};
ghost use Rattle.naive_code.specs.Expressions.{Site as Place};
ghost use Rattle.c_tree.specs.declared.typed.Object.{Object as Local};
ghost use Rattle.naive_expr.specs.Emitted.{Adds};
ghost use Rattle.naive_stat.specs.Cases.{cases_of, compared, default_of};
ghost use Rattle.naive_stat.specs.Runs.{block_steps};

use c_tree::Stat;
use naive_expr::{Emitter, Op, Stop};
use rtl_tree::NoMemory;
use rtl_word::Rel;
use sqlite_items::Boxed;

/// A case, or without a value the default, with the label of its block.
#[derive(Clone, Copy, Debug, PartialEq, Eq)]
pub struct Case {
    pub value: Option<u32>,
    pub label: u32,
}

fn sum(a: u16, b: u16) -> Result<u16, NoMemory>
    ensures { IfOk result (λ n. n ≡ a + b) }
{
    match a.checked_add(b) {
        Some(n) => Ok(n),
        None => Err(NoMemory),
    }
}

fn next_label(label: u32) -> Result<u32, NoMemory>
    ensures { IfOk result (λ l. l ≡ label + 1) }
{
    match label.checked_add(1) {
        Some(next) => Ok(next),
        None => Err(NoMemory),
    }
}

/// How many cases with a value a statement has that a switch around it sees.
fn values_of(s: &Stat) -> Result<u16, NoMemory>
    ensures { IfOk result (λ n. (c : Place) (locals : List Local) → n ≡ valued c locals (steps_of c locals s.now).cases) }
{
    match s {
        Stat::Case(_, _, a) => sum(1, values_of(a.get())?),
        Stat::Default(_, a) => values_of(a.get()),
        _ => Ok(0),
    }
}

/// The same of the statements of a switch's block.
pub(crate) fn values_in(ss: &[Boxed<Stat>]) -> Result<u16, NoMemory>
    ensures { IfOk result (λ n. (c : Place) (locals : List Local) → n ≡ valued c locals (block_steps c locals ss.now).cases) }
{
    let mut count = 0;
    for s in ss {
        count = sum(count, values_of(s.get())?)?;
    }
    Ok(count)
}

/// A value is compared with that of each case in turn. Each comparison has a temporary, and a label for what follows it.
fn push_comparisons(
    out: &mut Emitter,
    value: u16,
    temp: u16,
    label: u32,
    cases: &[Case],
) -> Result<(), NoMemory>
    ensures { OnOk result (Adds out.old out.new (compared value temp label (cases_of cases.now)) [] 0 0) }
{
    let mut temp = temp;
    let mut label = label;
    for case in cases {
        if let Some(number) = case.value {
            out.emit(Op::Constant(temp, number))?;
            out.close(Stop::Branches(Rel::Eq, value, temp, case.label), label)?;
            temp = sum(temp, 1)?;
            label = next_label(label)?;
        }
    }
    Ok(())
}

/// Where no case has the value: to the first default, or behind the switch.
fn default_in(cases: &[Case], behind: u32) -> u32
    ensures { result ≡ default_of behind (cases_of cases.now) }
{
    for case in cases {
        if case.value.is_none() {
            return case.label;
        }
    }
    behind
}

/// What leads to the cases of a switch. The block behind it, which nothing enters, has the label behind the switch's own.
pub(crate) fn push_dispatch(
    out: &mut Emitter,
    value: u16,
    temp: u16,
    first: u32,
    cases: &[Case],
    behind: u32,
) -> Result<(), NoMemory>
    requires { behind + 1 < 2 ^ 32 }
    ensures { OnOk result (Adds out.old out.new (compared value temp first (cases_of cases.now) ++ operation.Close (operation.Jumps (default_of behind (cases_of cases.now))) (behind + 1) ∷ []) [] 0 0) }
{
    push_comparisons(out, value, temp, first, cases)?;
    out.close(Stop::Jumps(default_in(cases, behind)), behind + 1)
}

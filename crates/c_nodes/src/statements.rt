//! Typed statements over their parts, where all of them are sound.

ghost use Rattle.std.specs.Prelude.{◌≡◌, Some, None, IfOk};
ghost use Rattle.c_tree.specs.declared.typed.Stat.TheVariants as stat;
ghost use Rattle.c_typing.specs.Expressions.{one, two, three, unless};
ghost use Rattle.c_typing.specs.Statements as spec;

use c_conversions::{converted, promoted};
use c_names::NoMemory;
use c_tree::typed::{Local, Start};
use c_tree::{At, CType, Stat, TypedExpr};
use sqlite_items::{Boxed, Items};
use std::alloc::Global;

/// What stands before the first semicolon of a `for`, the test, and the step.
pub type ForParts = (Start, Option<Boxed<TypedExpr>>, Option<Boxed<TypedExpr>>);

fn boxed(alloc: Global, s: Stat) -> Result<Option<Boxed<Stat>>, NoMemory>
    ensures { IfOk result (λ r. r ≡ Some s) }
{
    Ok(Some(Boxed::new(alloc, s)?))
}

pub fn block(
    alloc: Global,
    at: At,
    list: Option<Items<Boxed<Stat>>>,
) -> Result<Option<Boxed<Stat>>, NoMemory>
    ensures { IfOk result (λ r. r ≡ one (stat.Block at) list) }
{
    let Some(list) = list else {
        return Ok(None);
    };
    boxed(alloc, Stat::Block(at, list))
}

pub fn declare(
    alloc: Global,
    at: At,
    list: Option<Items<Local>>,
) -> Result<Option<Boxed<Stat>>, NoMemory>
    ensures { IfOk result (λ r. r ≡ one (stat.Declare at) list) }
{
    let Some(list) = list else {
        return Ok(None);
    };
    boxed(alloc, Stat::Declare(at, list))
}

pub fn null(alloc: Global, at: At) -> Result<Option<Boxed<Stat>>, NoMemory>
    ensures { IfOk result (λ r. r ≡ Some (stat.Evaluate at None)) }
{
    boxed(alloc, Stat::Evaluate(at, None))
}

pub fn evaluate(
    alloc: Global,
    at: At,
    e: Option<Boxed<TypedExpr>>,
) -> Result<Option<Boxed<Stat>>, NoMemory>
    ensures { IfOk result (λ r. r ≡ one (spec.evaluate at) e) }
{
    let Some(e) = e else {
        return Ok(None);
    };
    boxed(alloc, Stat::Evaluate(at, Some(e.into_inner())))
}

pub fn if_alone(
    alloc: Global,
    at: At,
    e: Option<Boxed<TypedExpr>>,
    a: Option<Boxed<Stat>>,
) -> Result<Option<Boxed<Stat>>, NoMemory>
    ensures { IfOk result (λ r. r ≡ two (spec.if_tree at) e a) }
{
    let Some(e) = e else {
        return Ok(None);
    };
    let Some(a) = a else {
        return Ok(None);
    };
    boxed(alloc, Stat::If(at, e.into_inner(), a, None))
}

pub fn if_else(
    alloc: Global,
    at: At,
    e: Option<Boxed<TypedExpr>>,
    a: Option<Boxed<Stat>>,
    b: Option<Boxed<Stat>>,
) -> Result<Option<Boxed<Stat>>, NoMemory>
    ensures { IfOk result (λ r. r ≡ three (spec.if_else_tree at) e a b) }
{
    let Some(e) = e else {
        return Ok(None);
    };
    let Some(a) = a else {
        return Ok(None);
    };
    let Some(b) = b else {
        return Ok(None);
    };
    boxed(alloc, Stat::If(at, e.into_inner(), a, Some(b)))
}

pub fn while_loop(
    alloc: Global,
    at: At,
    e: Option<Boxed<TypedExpr>>,
    a: Option<Boxed<Stat>>,
) -> Result<Option<Boxed<Stat>>, NoMemory>
    ensures { IfOk result (λ r. r ≡ two (stat.While at) e a) }
{
    let Some(e) = e else {
        return Ok(None);
    };
    let Some(a) = a else {
        return Ok(None);
    };
    boxed(alloc, Stat::While(at, e.into_inner(), a))
}

pub fn do_loop(
    alloc: Global,
    at: At,
    e: Option<Boxed<TypedExpr>>,
    a: Option<Boxed<Stat>>,
) -> Result<Option<Boxed<Stat>>, NoMemory>
    ensures { IfOk result (λ r. r ≡ two (spec.do_tree at) e a) }
{
    let Some(e) = e else {
        return Ok(None);
    };
    let Some(a) = a else {
        return Ok(None);
    };
    boxed(alloc, Stat::DoWhile(at, a, e.into_inner()))
}

fn unboxed(e: Option<Boxed<TypedExpr>>) -> Option<TypedExpr>
    ensures { result ≡ e }
{
    match e {
        None => None,
        Some(e) => Some(e.into_inner()),
    }
}

pub fn for_loop(
    alloc: Global,
    at: At,
    parts: Option<ForParts>,
    a: Option<Boxed<Stat>>,
) -> Result<Option<Boxed<Stat>>, NoMemory>
    ensures { IfOk result (λ r. r ≡ two (spec.for_tree at) parts a) }
{
    let Some((start, test, step)) = parts else {
        return Ok(None);
    };
    let Some(a) = a else {
        return Ok(None);
    };
    boxed(alloc, Stat::For(at, start, unboxed(test), unboxed(step), a))
}

pub fn switch(
    alloc: Global,
    at: At,
    e: Option<Boxed<TypedExpr>>,
    list: Option<Items<Boxed<Stat>>>,
) -> Result<Option<Boxed<Stat>>, NoMemory>
    ensures { IfOk result (λ r. r ≡ two (spec.switch_tree at) e list) }
{
    let Some(e) = e else {
        return Ok(None);
    };
    let Some(list) = list else {
        return Ok(None);
    };
    let of = promoted(e.get().head().of);
    let e = converted(alloc, of, e)?;
    boxed(alloc, Stat::Switch(at, e.into_inner(), list))
}

fn sound_case(
    alloc: Global,
    at: At,
    value: Option<u32>,
    a: Option<Boxed<Stat>>,
) -> Result<Option<Boxed<Stat>>, NoMemory>
    ensures { IfOk result (λ r. r ≡ two (spec.case_tree at) value a) }
{
    let Some(value) = value else {
        return Ok(None);
    };
    let Some(a) = a else {
        return Ok(None);
    };
    boxed(alloc, Stat::Case(at, value, a))
}

pub fn case(
    alloc: Global,
    stands: bool,
    at: At,
    value: Option<u32>,
    a: Option<Boxed<Stat>>,
) -> Result<Option<Boxed<Stat>>, NoMemory>
    ensures { IfOk result (λ r. r ≡ spec.kept_if stands (two (spec.case_tree at) value a)) }
{
    if stands {
        sound_case(alloc, at, value, a)
    } else {
        Ok(None)
    }
}

pub fn default(
    alloc: Global,
    stands: bool,
    at: At,
    a: Option<Boxed<Stat>>,
) -> Result<Option<Boxed<Stat>>, NoMemory>
    ensures { IfOk result (λ r. r ≡ spec.kept_if stands (one (stat.Default at) a)) }
{
    if !stands {
        return Ok(None);
    }
    let Some(a) = a else {
        return Ok(None);
    };
    boxed(alloc, Stat::Default(at, a))
}

pub fn break_out(alloc: Global, stands: bool, at: At) -> Result<Option<Boxed<Stat>>, NoMemory>
    ensures { IfOk result (λ r. r ≡ spec.kept_if stands (Some (stat.Break at))) }
{
    if stands {
        boxed(alloc, Stat::Break(at))
    } else {
        Ok(None)
    }
}

pub fn continue_on(alloc: Global, stands: bool, at: At) -> Result<Option<Boxed<Stat>>, NoMemory>
    ensures { IfOk result (λ r. r ≡ spec.kept_if stands (Some (stat.Continue at))) }
{
    if stands {
        boxed(alloc, Stat::Continue(at))
    } else {
        Ok(None)
    }
}

pub fn returns_wrong(of: CType, has_value: bool) -> bool
    ensures { result ≡ spec.returns_wrong of has_value }
{
    match of {
        CType::Void => has_value,
        _ => !has_value,
    }
}

pub fn return_nothing(alloc: Global, wrong: bool, at: At) -> Result<Option<Boxed<Stat>>, NoMemory>
    ensures { IfOk result (λ r. r ≡ unless wrong (Some (stat.Return at None))) }
{
    if wrong {
        Ok(None)
    } else {
        boxed(alloc, Stat::Return(at, None))
    }
}

pub fn return_value(
    alloc: Global,
    wrong: bool,
    at: At,
    of: CType,
    e: Option<Boxed<TypedExpr>>,
) -> Result<Option<Boxed<Stat>>, NoMemory>
    ensures { IfOk result (λ r. r ≡ unless wrong (one (spec.return_tree at of) e)) }
{
    if wrong {
        return Ok(None);
    }
    let Some(e) = e else {
        return Ok(None);
    };
    let e = converted(alloc, of, e)?;
    boxed(alloc, Stat::Return(at, Some(e.into_inner())))
}

//! Expressions and tests that may be absent.

ghost use Rattle.std.specs.Prelude.{◌≡◌, ◌+◌, ◌<◌, ◌^◌, [], OnOk};
ghost use Rattle.c_limits.specs.Depths.{depth_of, in_option};
ghost use Rattle.naive_code.specs.Statements as code;
ghost use Rattle.naive_code.specs.Expressions.{naive};
ghost use Rattle.naive_expr.specs.Seen.{site_of};
ghost use Rattle.naive_expr.specs.Emitted.{Adds, Decides};
ghost use Rattle.naive_stat.specs.Runs.{Runs};

use c_tree::{Object, TypedExpr};
use naive_expr::{Emitter, Jump, Site, Stop, expand_test, expand_value};
use rtl_tree::NoMemory;
use std::alloc::Global;

/// A value that isn't used.
pub(crate) fn expand_dropped(
    alloc: Global,
    site: &Site,
    out: &mut Emitter,
    e: &TypedExpr,
) -> Result<(), NoMemory>
    requires { 8 + depth_of e.now < 2 ^ 16 }
    ensures { OnOk result ((a : code.Around) → Runs out.old out.new (code.dropped (naive (site_of site.now) e.now).value) a) }
{
    expand_value(alloc, site, out, e, 0)?;
    Ok(())
}

pub(crate) fn expand_optional(
    alloc: Global,
    site: &Site,
    locals: &[Object],
    out: &mut Emitter,
    e: &Option<TypedExpr>,
) -> Result<(), NoMemory>
    requires { 8 + in_option depth_of e.now < 2 ^ 16 }
    ensures { OnOk result ((a : code.Around) → Runs out.old out.new (code.evaluated (site_of site.now) locals.now e.now) a) }
{
    match e {
        None => Ok(()),
        Some(e) => expand_dropped(alloc, site, out, e),
    }
}

/// A test that is absent holds.
pub(crate) fn expand_optional_test(
    alloc: Global,
    site: &Site,
    locals: &[Object],
    out: &mut Emitter,
    e: &Option<TypedExpr>,
    jump: Jump,
) -> Result<(), NoMemory>
    requires { 8 + in_option depth_of e.now < 2 ^ 16 }
    ensures { OnOk result (Decides out.old out.new (code.test_in (site_of site.now) locals.now e.now) jump 0) }
{
    match e {
        None => out.close(Stop::Falls, jump.next),
        Some(e) => expand_test(alloc, site, out, e, jump, 0),
    }
}

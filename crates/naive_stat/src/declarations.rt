//! Declarations (C11 6.7.9).

ghost use Rattle.std.specs.Prelude.{◌≡◌, ◌+◌, ◌*◌, ◌<◌, ◌^◌, [], ◌∷◌, ◌++◌, IfOk, OnOk, length, slice_get};
ghost use Rattle.c_limits.specs.Depths.{depth_of, in_init, in_list, in_locals, in_start};
ghost use Rattle.c_limits.specs.Frames.{element_bytes as element_size};
ghost use Rattle.c_limits.specs.Weights.{length_of};
ghost use Rattle.naive_code.specs.Operations as operation;
ghost use Rattle.naive_code.specs.Statements as code;
ghost use Rattle.naive_code.specs.Expressions.{naive, put_at};
ghost use Rattle.naive_expr.specs.Seen.{base_of, site_of, storage_of};
ghost use Rattle.naive_expr.specs.Emitted.{Adds};
ghost use Rattle.naive_stat.specs.Clearing.{cleared_ops, turn_ops};
ghost use Rattle.naive_stat.specs.Runs.{Runs};

use crate::optional::expand_dropped;
use c_tree::typed::{Local, LocalInit, Start, Variable};
use c_tree::{CType, Object, TypedExpr};
use naive_expr::{
    Base, Emitter, Op, Site, Stop, Storage, element_bytes, expand_value, push_put, push_store,
};
use rtl_tree::{BinOp, NoMemory};
use rtl_word::Rel;
use sqlite_items::at;
use std::alloc::Global;

/// The offset of an element from the stack register.
fn element_offset(bits: u32, offset: u32, i: u32, of: CType) -> Result<u32, NoMemory>
    ensures { IfOk result (λ k. k ≡ offset + i * element_size bits of) }
{
    let Some(bytes) = i.checked_mul(element_bytes(bits, of)) else {
        return Err(NoMemory);
    };
    match offset.checked_add(bytes) {
        Some(k) => Ok(k),
        None => Err(NoMemory),
    }
}

/// An element of an array in the frame gets a value, by its offset.
fn push_element(out: &mut Emitter, offset: u32, of: CType, value: u16) -> Result<(), NoMemory>
    ensures { OnOk result (Adds out.old out.new (operation.read_stack out.old.next_temp ∷ operation.constant (out.old.next_temp + 1) offset ∷ operation.add out.old.next_temp (out.old.next_temp + 1) ∷ put_at of out.old.next_temp value) (1 ∷ 2 ∷ []) 2 0) }
{
    let t = out.fresh(&[1, 2])?;
    out.emit(Op::ReadStack(t))?;
    out.emit(Op::Constant(t + 1, offset))?;
    out.emit(Op::Operate(BinOp::Add, t, t + 1))?;
    push_store(out, of, t, value)
}

/// An element of a local array, by its number.
fn expand_element(
    alloc: Global,
    site: &Site,
    out: &mut Emitter,
    storage: Storage,
    i: u32,
    e: &TypedExpr,
) -> Result<(), NoMemory>
    requires { 8 + depth_of e.now < 2 ^ 16 }
    ensures { OnOk result ((a : code.Around) → Runs out.old out.new (code.put_element site.now.bits (storage_of storage) i (naive (site_of site.now) e.now).value) a) }
{
    match storage {
        Storage::Elements(Base::Frame(offset), of) => {
            let value = expand_value(alloc, site, out, e, 0)?;
            push_element(out, element_offset(site.bits, offset, i, of)?, of, value)
        }
        _ => Ok(()),
    }
}

fn expand_elements(
    alloc: Global,
    site: &Site,
    out: &mut Emitter,
    storage: Storage,
    es: &[TypedExpr],
) -> Result<(), NoMemory>
    requires { 8 + in_list depth_of es.now < 2 ^ 16 }
    ensures { OnOk result ((a : code.Around) → Runs out.old out.new (code.put_elements (site_of site.now) (storage_of storage) 0 es.now) a) }
{
    let mut i: u32 = 0;
    for e in es {
        expand_element(alloc, site, out, storage, i, e)?;
        i = following(i)?;
    }
    Ok(())
}

fn following(i: u32) -> Result<u32, NoMemory>
    ensures { IfOk result (λ n. n ≡ i + 1) }
{
    match i.checked_add(1) {
        Some(n) => Ok(n),
        None => Err(NoMemory),
    }
}

/// The bytes of an array in the frame from one offset up to another become 0, by a loop that makes a turn at least.
fn push_cleared(out: &mut Emitter, of: CType, step: u32, from: u32, to: u32) -> Result<(), NoMemory>
    ensures { OnOk result (Adds out.old out.new (cleared_ops of step from to out.old.next_temp out.old.next_label) (0 ∷ 1 ∷ 2 ∷ 2 ∷ 3 ∷ 4 ∷ []) 6 2) }
{
    let t = out.fresh(&[0, 1, 2, 2, 3, 4])?;
    let label = out.take_labels(2)?;
    out.emit(Op::ReadStack(t))?;
    out.emit(Op::ReadStack(t + 1))?;
    out.emit(Op::Constant(t + 2, from))?;
    out.emit(Op::Operate(BinOp::Add, t, t + 2))?;
    out.emit(Op::Constant(t + 3, to))?;
    out.emit(Op::Operate(BinOp::Add, t + 1, t + 3))?;
    out.emit(Op::Constant(t + 4, 0))?;
    out.emit(Op::Constant(t + 5, step))?;
    push_turn(out, of, t, label)
}

fn push_turn(out: &mut Emitter, of: CType, t: u16, label: u32) -> Result<(), NoMemory>
    requires temporaries { t + 5 < 2 ^ 16 }
    requires labels { label + 1 < 2 ^ 32 }
    ensures { OnOk result (Adds out.old out.new (turn_ops of t label) [] 0 0) }
{
    out.close(Stop::Falls, label)?;
    push_store(out, of, t, t + 4)?;
    out.emit(Op::Operate(BinOp::Add, t, t + 5))?;
    out.close(Stop::Branches(Rel::Ne, t, t + 1, label), label + 1)
}

/// The elements of a local array from one number on, up to another.
fn expand_cleared(
    out: &mut Emitter,
    bits: u32,
    storage: Storage,
    from: u32,
    to: u32,
) -> Result<(), NoMemory>
    ensures { OnOk result ((a : code.Around) → Runs out.old out.new (code.cleared bits (storage_of storage) from to) a) }
{
    match storage {
        Storage::Elements(Base::Frame(offset), of) => {
            let from = element_offset(bits, offset, from, of)?;
            let to = element_offset(bits, offset, to, of)?;
            push_cleared(out, of, element_bytes(bits, of), from, to)
        }
        _ => Ok(()),
    }
}

fn length_in(locals: &[Object], x: u32) -> u32
    ensures { result ≡ length_of (slice_get locals.now x) }
{
    match at(locals, x as usize) {
        None => 0,
        Some(object) => object.length.unwrap_or(0),
    }
}

fn expand_list(
    alloc: Global,
    site: &Site,
    out: &mut Emitter,
    storage: Storage,
    size: u32,
    es: &[TypedExpr],
) -> Result<(), NoMemory>
    requires { 8 + in_list depth_of es.now < 2 ^ 16 }
    ensures { OnOk result ((a : code.Around) → Runs out.old out.new (code.joined (code.put_elements (site_of site.now) (storage_of storage) 0 es.now) (code.cleared_rest site.now.bits (storage_of storage) (length es.now) size)) a) }
{
    expand_elements(alloc, site, out, storage, es)?;
    if es.len() < size as usize {
        expand_cleared(out, site.bits, storage, es.len() as u32, size)
    } else {
        Ok(())
    }
}

fn expand_init(
    alloc: Global,
    site: &Site,
    locals: &[Object],
    out: &mut Emitter,
    x: u32,
    init: &LocalInit,
) -> Result<(), NoMemory>
    requires { 8 + in_init depth_of init.now < 2 ^ 16 }
    ensures { OnOk result ((a : code.Around) → Runs out.old out.new (code.init_steps (site_of site.now) locals.now x init.now) a) }
{
    match init {
        LocalInit::Absent => Ok(()),
        LocalInit::Value(e) => {
            let storage = site.storage(Variable::Local(x))?;
            let value = expand_value(alloc, site, out, e, 0)?;
            let spare = out.fresh(&[1])?;
            push_put(out, storage, 0, value, spare)
        }
        LocalInit::List(es) => {
            let storage = site.storage(Variable::Local(x))?;
            let size = length_in(locals, x);
            expand_list(alloc, site, out, storage, size, es.as_slice())
        }
    }
}

pub(crate) fn expand_locals(
    alloc: Global,
    site: &Site,
    locals: &[Object],
    out: &mut Emitter,
    declared: &[Local],
) -> Result<(), NoMemory>
    requires { 8 + in_locals depth_of declared.now < 2 ^ 16 }
    ensures { OnOk result ((a : code.Around) → Runs out.old out.new (code.locals_steps (site_of site.now) locals.now declared.now) a) }
{
    for local in declared {
        expand_init(alloc, site, locals, out, local.number, &local.init)?;
    }
    Ok(())
}

/// What stands before the first semicolon of a `for`.
pub(crate) fn expand_start(
    alloc: Global,
    site: &Site,
    locals: &[Object],
    out: &mut Emitter,
    start: &Start,
) -> Result<(), NoMemory>
    requires { 8 + in_start depth_of start.now < 2 ^ 16 }
    ensures { OnOk result ((a : code.Around) → Runs out.old out.new (code.started (site_of site.now) locals.now start.now) a) }
{
    match start {
        Start::Absent => Ok(()),
        Start::Value(e) => expand_dropped(alloc, site, out, e),
        Start::Declared(_, declared) => {
            expand_locals(alloc, site, locals, out, declared.as_slice())
        }
    }
}

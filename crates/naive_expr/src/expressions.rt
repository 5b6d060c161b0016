//! Expressions (C11 6.5): the operations that bring a value to a temporary, and those that jump by a truth.

ghost use Rattle.std.specs.Prelude.{◌≡◌, ◌+◌, ◌<◌, ◌^◌, [], ◌∷◌, IfOk, OnOk, map};
ghost use Rattle.c_limits.specs.Depths.{deepest_of, depth_of};
ghost use Rattle.c_limits.specs.Frames.{word_bytes};
ghost use Rattle.c_meaning.specs.Operators as meaning;
ghost use Rattle.naive_code.specs.Operations as operation;
ghost use Rattle.naive_code.specs.Expressions as code;
ghost use Rattle.naive_code.specs.Expressions.{naive};
ghost use Rattle.naive_expr.specs.Seen.{site_of, storage_of};
ghost use Rattle.naive_expr.specs.Emitted.{Adds, Brings, Decides};
ghost use Rattle.naive_expr.specs.Opened.{IsOpened};
ghost use Rattle.naive_expr.specs.Operands.{values_of};

use crate::calls::{combine, operation_labels, push_call, push_input, push_output};
use crate::emission::{Emitter, Jump};
use crate::objects::{
    push_address, push_conversion, push_fetch, push_missing, push_narrow, push_object,
};
use crate::operations::{Op, Stop};
use crate::operators::{
    Sort, begin_truth, decided, denied, end_truth, push_branch, push_computation, push_step,
    push_truth, relation_in, sort_of,
};
use crate::places::Opened;
use crate::sites::{Site, Storage};
use c_tree::syntax::{Arithmetic, BinaryOperator, StepOperator, UnaryOperator};
use c_tree::typed::{Callee, Operation};
use c_tree::{CType, TypedExpr};
use rtl_tree::{BinOp, NoMemory};
use sqlite_items::Items;
use std::alloc::Global;

fn type_of(e: &TypedExpr) -> CType
    ensures { (c : code.Site) → (naive c e.now).of ≡ result }
{
    match e {
        TypedExpr::Comma(head, ..) => head.of,
        TypedExpr::Assign(head, ..) => head.of,
        TypedExpr::Compound(head, ..) => head.of,
        TypedExpr::Conditional(head, ..) => head.of,
        TypedExpr::Binary(head, ..) => head.of,
        TypedExpr::Unary(head, ..) => head.of,
        TypedExpr::Before(head, ..) => head.of,
        TypedExpr::After(head, ..) => head.of,
        TypedExpr::Constant(head, _) => head.of,
        TypedExpr::Object(head, _) => head.of,
        TypedExpr::Element(head, ..) => head.of,
        TypedExpr::Call(head, ..) => head.of,
        TypedExpr::Convert(head, _) => head.of,
    }
}

fn constant(out: &mut Emitter, value: u32, depth: u16) -> Result<u16, NoMemory>
    ensures adds { OnOk result (Adds out.old out.new (operation.constant out.old.next_temp value ∷ []) (depth ∷ []) 1 0) }
    ensures at { IfOk result (λ t. t ≡ out.old.next_temp) }
{
    let t = out.fresh(&[depth])?;
    out.emit(Op::Constant(t, value))?;
    Ok(t)
}

/// The value of an expression comes to the temporary that is answered.
#[cycle(expressions)]
pub fn expand_value(
    alloc: Global,
    site: &Site,
    out: &mut Emitter,
    e: &TypedExpr,
    depth: u16,
) -> Result<u16, NoMemory>
    requires { depth + 4 + depth_of e.now < 2 ^ 16 }
    ensures adds { OnOk result (Brings out.old out.new (naive (site_of site.now) e.now).value depth) }
    ensures at { IfOk result (λ t. t ≡ (naive (site_of site.now) e.now).value.result out.old.next_temp) }
{
    match e {
        TypedExpr::Constant(_, value) => constant(out, *value, depth),
        TypedExpr::Object(_, x) => push_object(out, site.storage(*x)?, depth),
        TypedExpr::Element(_, x, i) => {
            let storage = site.storage(*x)?;
            element(alloc, site, out, storage, i.get(), depth)
        }
        TypedExpr::Assign(_, a, b) => assign(alloc, site, out, a.get(), b.get(), depth),
        TypedExpr::Compound(_, a, o, b) => {
            compound(alloc, site, out, a.get(), *o, b.get(), depth)
        }
        TypedExpr::Before(_, o, a) => step_before(alloc, site, out, *o, a.get(), depth),
        TypedExpr::After(_, a, o) => step_after(alloc, site, out, a.get(), *o, depth),
        TypedExpr::Binary(_, a, o, b) => { binary(alloc, site, out, a.get(), *o, b.get(), depth) }
        TypedExpr::Unary(_, o, a) => unary(alloc, site, out, *o, a.get(), depth),
        TypedExpr::Convert(head, a) => {
            let value = expand_value(alloc, site, out, a.get(), depth)?;
            push_conversion(out, head.of, value, depth)?;
            Ok(value)
        }
        TypedExpr::Comma(_, a, b) => {
            expand_value(alloc, site, out, a.get(), depth)?;
            expand_value(alloc, site, out, b.get(), depth)
        }
        TypedExpr::Conditional(_, a, b, c) => {
            choose(alloc, site, out, a.get(), b.get(), c.get(), depth)
        }
        TypedExpr::Call(_, f, es) => call(alloc, site, out, *f, es.as_slice(), depth),
    }
}

/// A jump by the truth of an expression.
#[cycle(expressions)]
pub fn expand_test(
    alloc: Global,
    site: &Site,
    out: &mut Emitter,
    e: &TypedExpr,
    jump: Jump,
    depth: u16,
) -> Result<(), NoMemory>
    requires { depth + 4 + depth_of e.now < 2 ^ 16 }
    ensures { OnOk result (Decides out.old out.new (naive (site_of site.now) e.now).test jump depth) }
{
    match e {
        TypedExpr::Binary(_, a, o, b) => {
            decide(alloc, site, out, a.get(), *o, b.get(), jump, depth)
        }
        TypedExpr::Unary(_, UnaryOperator::Not, a) => {
            expand_test(alloc, site, out, a.get(), denied(jump), depth)
        }
        TypedExpr::Comma(_, a, b) => {
            expand_value(alloc, site, out, a.get(), depth)?;
            expand_test(alloc, site, out, b.get(), jump, depth)
        }
        _ => {
            let value = expand_value(alloc, site, out, e, depth)?;
            push_truth(out, value, jump, depth)
        }
    }
}

/// The address of an element comes to the temporary of its index.
#[cycle(expressions)]
fn address(
    alloc: Global,
    site: &Site,
    out: &mut Emitter,
    storage: Storage,
    i: &TypedExpr,
    depth: u16,
) -> Result<u16, NoMemory>
    requires { depth + 6 + depth_of i.now < 2 ^ 16 }
    ensures adds { OnOk result (Brings out.old out.new (code.address_in (storage_of storage) (naive (site_of site.now) i.now).value) depth) }
    ensures at { IfOk result (λ t. t ≡ (code.address_in (storage_of storage) (naive (site_of site.now) i.now).value).result out.old.next_temp) }
{
    match storage {
        Storage::Elements(base, of) => {
            let index = expand_value(alloc, site, out, i, depth)?;
            push_address(out, base, of, index, depth)?;
            Ok(index)
        }
        _ => push_missing(out, depth),
    }
}

#[cycle(expressions)]
fn element(
    alloc: Global,
    site: &Site,
    out: &mut Emitter,
    storage: Storage,
    i: &TypedExpr,
    depth: u16,
) -> Result<u16, NoMemory>
    requires { depth + 6 + depth_of i.now < 2 ^ 16 }
    ensures adds { OnOk result (Brings out.old out.new (code.read_element (storage_of storage) (naive (site_of site.now) i.now).value) depth) }
    ensures at { IfOk result (λ t. t ≡ (code.read_element (storage_of storage) (naive (site_of site.now) i.now).value).result out.old.next_temp) }
{
    match storage {
        Storage::Elements(_, of) => {
            let value = address(alloc, site, out, storage, i, depth)?;
            let spare = out.fresh(&[depth + 1])?;
            push_fetch(out, of, value, value, spare)?;
            Ok(value)
        }
        _ => push_missing(out, depth),
    }
}

/// What stands before an assignment to an expression.
#[cycle(expressions)]
fn open(
    alloc: Global,
    site: &Site,
    out: &mut Emitter,
    a: &TypedExpr,
    depth: u16,
) -> Result<Opened, NoMemory>
    requires { depth + 4 + depth_of a.now < 2 ^ 16 }
    ensures adds { OnOk result (Brings out.old out.new (code.opened (naive (site_of site.now) a.now).place) depth) }
    ensures opened { IfOk result (λ o. IsOpened o (naive (site_of site.now) a.now).place out.old.next_temp) }
{
    match a {
        TypedExpr::Object(_, x) => Ok(Opened {
            storage: site.storage(*x)?,
            at: 0,
            is_element: false,
        }),
        TypedExpr::Element(_, x, i) => {
            let storage = site.storage(*x)?;
            let at = address(alloc, site, out, storage, i.get(), depth)?;
            Ok(Opened {
                storage,
                at,
                is_element: true,
            })
        }
        _ => Ok(Opened {
            storage: Storage::Missing,
            at: 0,
            is_element: false,
        }),
    }
}

#[cycle(expressions)]
fn assign(
    alloc: Global,
    site: &Site,
    out: &mut Emitter,
    a: &TypedExpr,
    b: &TypedExpr,
    depth: u16,
) -> Result<u16, NoMemory>
    requires left { depth + 6 + depth_of a.now < 2 ^ 16 }
    requires right { depth + 7 + depth_of b.now < 2 ^ 16 }
    ensures adds { OnOk result (Brings out.old out.new (code.assigned (naive (site_of site.now) a.now).place (naive (site_of site.now) b.now).value) depth) }
    ensures at { IfOk result (λ t. t ≡ (code.assigned (naive (site_of site.now) a.now).place (naive (site_of site.now) b.now).value).result out.old.next_temp) }
{
    let place = open(alloc, site, out, a, depth)?;
    let depth = depth + place.beside();
    let value = expand_value(alloc, site, out, b, depth)?;
    let spare = out.fresh(&[depth + 1])?;
    place.put(out, value, spare)?;
    place.settle(out, value)
}

#[cycle(expressions)]
fn compound(
    alloc: Global,
    site: &Site,
    out: &mut Emitter,
    a: &TypedExpr,
    operation: Operation,
    b: &TypedExpr,
    depth: u16,
) -> Result<u16, NoMemory>
    requires left { depth + 6 + depth_of a.now < 2 ^ 16 }
    requires right { depth + 7 + depth_of b.now < 2 ^ 16 }
    ensures adds { OnOk result (Brings out.old out.new (code.compound (word_bytes site.now.bits) operation (naive (site_of site.now) a.now).of (naive (site_of site.now) a.now).place (naive (site_of site.now) b.now).of (naive (site_of site.now) b.now).value) depth) }
    ensures at { IfOk result (λ t. t ≡ (code.compound (word_bytes site.now.bits) operation (naive (site_of site.now) a.now).of (naive (site_of site.now) a.now).place (naive (site_of site.now) b.now).of (naive (site_of site.now) b.now).value).result out.old.next_temp) }
{
    let label = out.take_labels(operation_labels(operation))?;
    let place = open(alloc, site, out, a, depth)?;
    let depth = depth + place.beside();
    let value = out.fresh(&[depth, depth + 1])?;
    place.get(out, value, value + 1)?;
    let operand = expand_value(alloc, site, out, b, depth + 1)?;
    let spare = out.fresh(&[depth + 1, depth + 1])?;
    let of = type_of(a);
    combine(
        out,
        site.bits,
        operation,
        of,
        type_of(b),
        value,
        operand,
        label,
    )?;
    push_narrow(out, of, value, spare)?;
    place.put(out, value, spare + 1)?;
    place.settle(out, value)
}

#[cycle(expressions)]
fn step_before(
    alloc: Global,
    site: &Site,
    out: &mut Emitter,
    operator: StepOperator,
    a: &TypedExpr,
    depth: u16,
) -> Result<u16, NoMemory>
    requires { depth + 6 + depth_of a.now < 2 ^ 16 }
    ensures adds { OnOk result (Brings out.old out.new (code.stepped_before operator (naive (site_of site.now) a.now).of (naive (site_of site.now) a.now).place) depth) }
    ensures at { IfOk result (λ t. t ≡ (code.stepped_before operator (naive (site_of site.now) a.now).of (naive (site_of site.now) a.now).place).result out.old.next_temp) }
{
    let place = open(alloc, site, out, a, depth)?;
    let depth = depth + place.beside();
    let value = out.fresh(&[depth, depth + 1, depth + 1, depth + 1, depth + 1])?;
    place.get(out, value, value + 1)?;
    push_step(out, operator, type_of(a), value, value + 2)?;
    place.put(out, value, value + 4)?;
    place.settle(out, value)
}

#[cycle(expressions)]
fn step_after(
    alloc: Global,
    site: &Site,
    out: &mut Emitter,
    a: &TypedExpr,
    operator: StepOperator,
    depth: u16,
) -> Result<u16, NoMemory>
    requires { depth + 6 + depth_of a.now < 2 ^ 16 }
    ensures adds { OnOk result (Brings out.old out.new (code.stepped_after operator (naive (site_of site.now) a.now).of (naive (site_of site.now) a.now).place) depth) }
    ensures at { IfOk result (λ t. t ≡ (code.stepped_after operator (naive (site_of site.now) a.now).of (naive (site_of site.now) a.now).place).result out.old.next_temp) }
{
    let place = open(alloc, site, out, a, depth)?;
    let depth = depth + place.beside();
    let old = out.fresh(&[depth, depth + 1, depth + 1, depth + 2, depth + 2, depth + 2])?;
    place.get(out, old, old + 1)?;
    out.emit(Op::Copy(old + 2, old))?;
    push_step(out, operator, type_of(a), old + 2, old + 3)?;
    place.put(out, old + 2, old + 5)?;
    place.settle(out, old)
}

/// A jump by what an operator gives of two operands.
#[cycle(expressions)]
fn decide(
    alloc: Global,
    site: &Site,
    out: &mut Emitter,
    a: &TypedExpr,
    operator: BinaryOperator,
    b: &TypedExpr,
    jump: Jump,
    depth: u16,
) -> Result<(), NoMemory>
    requires left { depth + 5 + depth_of a.now < 2 ^ 16 }
    requires right { depth + 6 + depth_of b.now < 2 ^ 16 }
    ensures { OnOk result (Decides out.old out.new (code.truth_of (naive (site_of site.now) a.now).of (meaning.sort_of operator) (naive (site_of site.now) a.now) (naive (site_of site.now) b.now)) jump depth) }
{
    match sort_of(operator) {
        Sort::Computes(operator) => {
            let x = compute(alloc, site, out, a, operator, b, depth)?;
            push_truth(out, x, jump, depth)
        }
        Sort::Compares(signed, unsigned) => {
            let x = expand_value(alloc, site, out, a, depth)?;
            let y = expand_value(alloc, site, out, b, depth + 1)?;
            push_branch(out, relation_in(type_of(a), signed, unsigned), x, y, jump)
        }
        Sort::Logical(and) => {
            let label = out.take_labels(1)?;
            let first = Jump {
                sense: !and,
                target: decided(and, jump),
                next: label,
            };
            expand_test(alloc, site, out, a, first, depth)?;
            expand_test(alloc, site, out, b, jump, depth)
        }
    }
}

#[cycle(expressions)]
fn compute(
    alloc: Global,
    site: &Site,
    out: &mut Emitter,
    a: &TypedExpr,
    operator: Arithmetic,
    b: &TypedExpr,
    depth: u16,
) -> Result<u16, NoMemory>
    requires left { depth + 4 + depth_of a.now < 2 ^ 16 }
    requires right { depth + 5 + depth_of b.now < 2 ^ 16 }
    ensures adds { OnOk result (Brings out.old out.new (code.joined (naive (site_of site.now) a.now).value (naive (site_of site.now) b.now).value (code.computed operator (naive (site_of site.now) a.now).of)) depth) }
    ensures at { IfOk result (λ t. t ≡ (naive (site_of site.now) a.now).value.result out.old.next_temp) }
{
    let x = expand_value(alloc, site, out, a, depth)?;
    let y = expand_value(alloc, site, out, b, depth + 1)?;
    push_computation(out, operator, type_of(a), x, y)?;
    Ok(x)
}

#[cycle(expressions)]
fn binary(
    alloc: Global,
    site: &Site,
    out: &mut Emitter,
    a: &TypedExpr,
    operator: BinaryOperator,
    b: &TypedExpr,
    depth: u16,
) -> Result<u16, NoMemory>
    requires left { depth + 6 + depth_of a.now < 2 ^ 16 }
    requires right { depth + 7 + depth_of b.now < 2 ^ 16 }
    ensures adds { OnOk result (Brings out.old out.new (code.two (naive (site_of site.now) a.now).of (meaning.sort_of operator) (naive (site_of site.now) a.now) (naive (site_of site.now) b.now)) depth) }
    ensures at { IfOk result (λ t. t ≡ (code.two (naive (site_of site.now) a.now).of (meaning.sort_of operator) (naive (site_of site.now) a.now) (naive (site_of site.now) b.now)).result out.old.next_temp) }
{
    match sort_of(operator) {
        Sort::Computes(operator) => compute(alloc, site, out, a, operator, b, depth),
        _ => {
            let truth = begin_truth(out, depth)?;
            decide(alloc, site, out, a, operator, b, truth.jump(), depth + 1)?;
            end_truth(out, truth)
        }
    }
}

#[cycle(expressions)]
fn unary(
    alloc: Global,
    site: &Site,
    out: &mut Emitter,
    operator: UnaryOperator,
    a: &TypedExpr,
    depth: u16,
) -> Result<u16, NoMemory>
    requires { depth + 6 + depth_of a.now < 2 ^ 16 }
    ensures adds { OnOk result (Brings out.old out.new (code.one operator (naive (site_of site.now) a.now)) depth) }
    ensures at { IfOk result (λ t. t ≡ (code.one operator (naive (site_of site.now) a.now)).result out.old.next_temp) }
{
    match operator {
        UnaryOperator::Plus => expand_value(alloc, site, out, a, depth),
        UnaryOperator::Minus => {
            let value = expand_value(alloc, site, out, a, depth + 1)?;
            let zero = constant(out, 0, depth)?;
            out.emit(Op::Operate(BinOp::Sub, zero, value))?;
            Ok(zero)
        }
        UnaryOperator::Complement => {
            let value = expand_value(alloc, site, out, a, depth)?;
            out.emit(Op::Complement(value))?;
            Ok(value)
        }
        UnaryOperator::Not => {
            let truth = begin_truth(out, depth)?;
            expand_test(alloc, site, out, a, denied(truth.jump()), depth + 1)?;
            end_truth(out, truth)
        }
    }
}

/// The value of one of two expressions, by the truth of another (C11 6.5.15).
#[cycle(expressions)]
fn choose(
    alloc: Global,
    site: &Site,
    out: &mut Emitter,
    a: &TypedExpr,
    b: &TypedExpr,
    c: &TypedExpr,
    depth: u16,
) -> Result<u16, NoMemory>
    requires first { depth + 5 + depth_of a.now < 2 ^ 16 }
    requires second { depth + 5 + depth_of b.now < 2 ^ 16 }
    requires third { depth + 5 + depth_of c.now < 2 ^ 16 }
    ensures adds { OnOk result (Brings out.old out.new (code.chosen (naive (site_of site.now) a.now).test (naive (site_of site.now) b.now).value (naive (site_of site.now) c.now).value) depth) }
    ensures at { IfOk result (λ t. t ≡ out.old.next_temp) }
{
    let t = out.fresh(&[depth])?;
    let label = out.take_labels(3)?;
    let jump = Jump {
        sense: false,
        target: label,
        next: label + 1,
    };
    expand_test(alloc, site, out, a, jump, depth + 1)?;
    let x = expand_value(alloc, site, out, b, depth + 1)?;
    out.emit(Op::Copy(t, x))?;
    out.close(Stop::Jumps(label + 2), label)?;
    let y = expand_value(alloc, site, out, c, depth + 1)?;
    out.emit(Op::Copy(t, y))?;
    out.close(Stop::Falls, label + 2)?;
    Ok(t)
}

/// The values of arguments, each a depth deeper than the one before; their temporaries.
#[cycle(expressions)]
fn arguments(
    alloc: Global,
    site: &Site,
    out: &mut Emitter,
    es: &[TypedExpr],
    depth: u16,
) -> Result<Items<u16>, NoMemory>
    requires { depth + 6 + deepest_of 0 es.now < 2 ^ 16 }
    ensures adds { OnOk result (Brings out.old out.new (code.arguments (values_of (site_of site.now) es.now)) depth) }
    ensures at { IfOk result (λ ts. ts ≡ code.results_of (values_of (site_of site.now) es.now) out.old.next_temp) }
{
    let mut made = Items::new(alloc);
    let mut at = depth;
    for e in es {
        let value = expand_value(alloc, site, out, e, at)?;
        made.push(value)?;
        at += 1;
    }
    Ok(made)
}

#[cycle(expressions)]
fn call(
    alloc: Global,
    site: &Site,
    out: &mut Emitter,
    f: Callee,
    es: &[TypedExpr],
    depth: u16,
) -> Result<u16, NoMemory>
    requires { depth + 6 + deepest_of 0 es.now < 2 ^ 16 }
    ensures adds { OnOk result (Brings out.old out.new (code.call_of (word_bytes site.now.bits) f (values_of (site_of site.now) es.now)) depth) }
    ensures at { IfOk result (λ t. t ≡ (code.call_of (word_bytes site.now.bits) f (values_of (site_of site.now) es.now)).result out.old.next_temp) }
{
    match f {
        Callee::Defined(f) => {
            let label = out.take_labels(1)?;
            let values = arguments(alloc, site, out, es, depth)?;
            push_call(out, site.bits, values.as_slice(), f, label, depth)
        }
        Callee::Getchar => push_input(out, depth),
        Callee::Putchar => match es {
            [] => push_missing(out, depth),
            [first, ..] => {
                let value = expand_value(alloc, site, out, first, depth)?;
                let spare = out.fresh(&[depth + 1])?;
                push_output(out, value, spare)?;
                Ok(value)
            }
        },
    }
}

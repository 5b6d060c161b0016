//! What functions weigh.

ghost use Rattle.std.specs.Prelude.{◌≡◌, ◌+◌, ◌≤◌, if◌then◌else◌, length, nat_lt, slice_get, []};
ghost use Rattle.c_limits.specs.Sums.{capped};
ghost use Rattle.c_limits.specs.Weights.{arithmetic_weight, assigned_weight, binary_weight, block_weight, conversion_weight, each_of, else_weight, function_weight, init_weight, length_of, locals_weight, operation_weight, option_weight, place_of, read_weight, start_weight, stat_weight, unary_weight, weight_in};
ghost use Rattle.c_limits.specs.Capped.{capped_weight};

use c_tree::syntax::{Arithmetic, BinaryOperator, UnaryOperator};
use c_tree::typed::{Local, LocalInit, Object, Operation, Start, Variable};
use c_tree::{CType, Function, Stat, TypedExpr};
use sqlite_items::{Boxed, at};

/// What the left side of an assignment designates.
#[derive(Clone, Copy)]
enum Place {
    Local,
    Static,
    Element,
    None,
}

/// The weight of an expression as a value, and what weighs in it where it is assigned to.
#[derive(Clone, Copy)]
struct Weight {
    place: Place,
    /// The weight of an element's index.
    inside: u64,
    total: u64,
}

fn place_of(x: Variable) -> Place
    ensures { result ≡ place_of x }
{
    match x {
        Variable::Static(_) => Place::Static,
        Variable::Parameter(_) => Place::Local,
        Variable::Local(_) => Place::Local,
    }
}

fn read_weight(place: Place) -> u64
    ensures weight { result ≡ read_weight place }
    ensures small { result ≤ 12 }
{
    match place {
        Place::Local => 1,
        Place::Static => 2,
        Place::Element => 12,
        Place::None => 0,
    }
}

fn assigned_weight(place: Place) -> u64
    ensures weight { result ≡ assigned_weight place }
    ensures small { result ≤ 12 }
{
    match place {
        Place::Local => 2,
        Place::Static => 3,
        Place::Element => 12,
        Place::None => 0,
    }
}

fn arithmetic_weight(o: Arithmetic) -> u64
    ensures weight { result ≡ arithmetic_weight o }
    ensures small { result ≤ 6 }
{
    match o {
        Arithmetic::Add => 2,
        Arithmetic::Subtract => 2,
        Arithmetic::And => 2,
        Arithmetic::Or => 2,
        _ => 6,
    }
}

fn operation_weight(o: Operation) -> u64
    ensures weight { result ≡ operation_weight o }
    ensures small { result ≤ 6 }
{
    match o {
        Operation::Operator(o) => arithmetic_weight(o),
        Operation::Helper(_) => 6,
    }
}

fn binary_weight(o: BinaryOperator) -> u64
    ensures weight { result ≡ binary_weight o }
    ensures small { result ≤ 8 }
{
    match o {
        BinaryOperator::Add => 2,
        BinaryOperator::Subtract => 2,
        BinaryOperator::And => 2,
        BinaryOperator::Or => 2,
        BinaryOperator::Multiply => 6,
        BinaryOperator::Divide => 6,
        BinaryOperator::Remainder => 6,
        BinaryOperator::ShiftLeft => 6,
        BinaryOperator::ShiftRight => 6,
        BinaryOperator::Xor => 6,
        _ => 8,
    }
}

fn unary_weight(o: UnaryOperator) -> u64
    ensures weight { result ≡ unary_weight o }
    ensures small { result ≤ 8 }
{
    match o {
        UnaryOperator::Plus => 0,
        UnaryOperator::Minus => 2,
        UnaryOperator::Complement => 2,
        UnaryOperator::Not => 8,
    }
}

fn conversion_weight(of: CType) -> u64
    ensures weight { result ≡ conversion_weight of }
    ensures small { result ≤ 8 }
{
    match of {
        CType::Schar => 8,
        CType::Uchar => 3,
        _ => 0,
    }
}

fn value(total: u64) -> Weight
    ensures { result ≡ record { place = Place.None; inside = 0; total = total } }
{
    Weight {
        place: Place::None,
        inside: 0,
        total,
    }
}

fn named(place: Place, index: u64) -> Weight
    ensures { result ≡ record { place = place; inside = index; total = capped (read_weight place + index) } }
{
    Weight {
        place,
        inside: index,
        total: read_weight(place).saturating_add(index),
    }
}

fn plus(a: u64, b: u64, c: u64) -> u64
    ensures { result ≡ capped (a + b + c) }
{
    a.saturating_add(b).saturating_add(c)
}

fn changed(a: Weight, operator: u64) -> u64
    requires { operator ≤ 6 }
    ensures { result ≡ capped (assigned_weight a.place + read_weight a.place + operator + 4 + a.inside) }
{
    (assigned_weight(a.place) + read_weight(a.place) + operator + 4).saturating_add(a.inside)
}

#[cycle(weight)]
fn each(n: u64, es: &[TypedExpr]) -> u64
    ensures { result ≡ capped (each_of n es.now) }
{
    let mut sum: u64 = 0;
    for e in es {
        sum = plus(sum, n, weigh(e).total);
    }
    sum
}

#[cycle(weight)]
fn weigh(e: &TypedExpr) -> Weight
    ensures { result ≡ capped_weight (weight_in e.now) }
{
    match e {
        TypedExpr::Constant(..) => value(1),
        TypedExpr::Object(_, x) => named(place_of(*x), 0),
        TypedExpr::Element(_, _, i) => named(Place::Element, weigh(i.get()).total),
        TypedExpr::Assign(_, a, b) => {
            let left = weigh(a.get());
            value(plus(
                assigned_weight(left.place),
                left.inside,
                weigh(b.get()).total,
            ))
        }
        TypedExpr::Compound(_, a, o, b) => {
            let left = changed(weigh(a.get()), operation_weight(*o));
            value(left.saturating_add(weigh(b.get()).total))
        }
        TypedExpr::Before(_, _, a) => value(changed(weigh(a.get()), 2)),
        TypedExpr::After(_, a, _) => value(changed(weigh(a.get()), 2)),
        TypedExpr::Binary(_, a, o, b) => {
            value(plus(
                binary_weight(*o),
                weigh(a.get()).total,
                weigh(b.get()).total,
            ))
        }
        TypedExpr::Unary(_, o, a) => value(unary_weight(*o).saturating_add(weigh(a.get()).total)),
        TypedExpr::Convert(h, a) => {
            value(conversion_weight(h.of).saturating_add(weigh(a.get()).total))
        }
        TypedExpr::Comma(_, a, b) => value(
            weigh(a.get()).total.saturating_add(weigh(b.get()).total),
        ),
        TypedExpr::Conditional(_, a, b, c) => {
            let branches = weigh(b.get()).total.saturating_add(weigh(c.get()).total);
            value(plus(8, weigh(a.get()).total, branches))
        }
        TypedExpr::Call(_, _, es) => value(each(1, es.as_slice()).saturating_add(6)),
    }
}

fn option_weight(e: &Option<TypedExpr>) -> u64
    ensures { result ≡ capped (option_weight e.now) }
{
    match e {
        None => 0,
        Some(e) => weigh(e).total,
    }
}

fn length_of(locals: &[Object], number: u32) -> u32
    ensures { result ≡ length_of (slice_get locals.now number) }
{
    match at(locals, number as usize) {
        None => 0,
        Some(object) => object.length.unwrap_or(0),
    }
}

fn list_weight(size: u32, es: &[TypedExpr]) -> u64
    ensures { result ≡ capped (each_of 12 es.now + (if nat_lt (length es.now) size then 24 else 0)) }
{
    if es.len() < size as usize {
        each(12, es).saturating_add(24)
    } else {
        each(12, es)
    }
}

fn init_weight(size: u32, init: &LocalInit) -> u64
    ensures { result ≡ capped (init_weight size init.now) }
{
    match init {
        LocalInit::Absent => 0,
        LocalInit::Value(e) => weigh(e).total.saturating_add(2),
        LocalInit::List(es) => list_weight(size, es.as_slice()),
    }
}

fn locals_weight(locals: &[Object], declared: &[Local]) -> u64
    ensures { result ≡ capped (locals_weight locals.now declared.now) }
{
    let mut sum: u64 = 0;
    for l in declared {
        let size = length_of(locals, l.number);
        sum = sum.saturating_add(init_weight(size, &l.init));
    }
    sum
}

fn start_weight(locals: &[Object], start: &Start) -> u64
    ensures { result ≡ capped (start_weight locals.now start.now) }
{
    match start {
        Start::Absent => 0,
        Start::Value(e) => weigh(e).total,
        Start::Declared(_, declared) => locals_weight(locals, declared.as_slice()),
    }
}

#[cycle(statements)]
fn block_weight(locals: &[Object], ss: &[Boxed<Stat>]) -> u64
    ensures { result ≡ capped (block_weight [] locals.now ss.now) }
{
    let mut sum: u64 = 0;
    for s in ss {
        sum = sum.saturating_add(stat_weight(locals, s.get()));
    }
    sum
}

#[cycle(statements)]
fn else_weight(locals: &[Object], s: &Option<Boxed<Stat>>) -> u64
    ensures { result ≡ capped (else_weight [] locals.now s.now) }
{
    match s {
        None => 0,
        Some(s) => stat_weight(locals, s.get()),
    }
}

#[cycle(statements)]
fn stat_weight(locals: &[Object], s: &Stat) -> u64
    ensures { result ≡ capped (stat_weight [] locals.now s.now) }
{
    match s {
        Stat::Block(_, ss) => block_weight(locals, ss.as_slice()),
        Stat::Declare(_, declared) => locals_weight(locals, declared.as_slice()),
        Stat::Evaluate(_, e) => option_weight(e).saturating_add(1),
        Stat::If(_, e, a, b) => {
            let branches = stat_weight(locals, a.get()).saturating_add(else_weight(locals, b));
            plus(8, weigh(e).total, branches)
        }
        Stat::While(_, e, a) => plus(10, weigh(e).total, stat_weight(locals, a.get())),
        Stat::DoWhile(_, a, e) => plus(10, stat_weight(locals, a.get()), weigh(e).total),
        Stat::For(_, first, test, step, a) => {
            let head = plus(
                start_weight(locals, first),
                option_weight(test),
                option_weight(step),
            );
            plus(10, head, stat_weight(locals, a.get()))
        }
        Stat::Switch(_, e, ss) => plus(6, weigh(e).total, block_weight(locals, ss.as_slice())),
        Stat::Case(_, _, a) => stat_weight(locals, a.get()).saturating_add(4),
        Stat::Default(_, a) => stat_weight(locals, a.get()),
        Stat::Break(_) => 1,
        Stat::Continue(_) => 1,
        Stat::Return(_, e) => option_weight(e).saturating_add(4),
    }
}

/// The weight of a function: its plain code has no more transfers. Of weights from `2^64 - 1` on it
/// gives that number.
pub fn weight_of(f: &Function) -> u64
    ensures { result ≡ capped (function_weight [] f.now) }
{
    let entry = (f.params.len() as u64).saturating_mul(2).saturating_add(48);
    entry.saturating_add(stat_weight(f.locals.as_slice(), f.body.get()))
}

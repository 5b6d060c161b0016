//! How deep expressions nest, and how many arguments calls have.

ghost use Rattle.std.specs.Prelude.{◌≡◌, ◌+◌, ◌≤◌, length, max};
ghost use Rattle.c_limits.specs.Sums.{capped};
ghost use Rattle.c_limits.specs.Depths.{arguments_of, conversion_depth, deepest_of, depth_of, greatest_in, in_block, in_else, in_init, in_list, in_locals, in_option, in_start, most_of};

use c_tree::typed::{Local, LocalInit, Start};
use c_tree::{CType, Function, Stat, TypedExpr};
use sqlite_items::Boxed;

fn conversion_depth(of: CType) -> u64
    ensures { result ≡ conversion_depth of }
{
    match of {
        CType::Schar => 4,
        CType::Uchar => 4,
        _ => 0,
    }
}

/// The depth of a node of one operand.
fn over(a: u64) -> u64
    ensures { result ≡ capped (2 + a) }
{
    a.saturating_add(2)
}

/// The depth of a node of two operands.
fn over_two(a: u64, b: u64) -> u64
    ensures { result ≡ capped (2 + max a (b + 1)) }
{
    a.max(b.saturating_add(1)).saturating_add(2)
}

#[cycle(depth)]
fn arguments_depth(es: &[TypedExpr]) -> u64
    ensures { result ≡ capped (2 + deepest_of 0 es.now) }
{
    let mut greatest: u64 = 0;
    for (i, e) in es.iter().enumerate() {
        greatest = greatest.max(depth(e).saturating_add(i as u64));
    }
    greatest.saturating_add(2)
}

/// The depth of an expression.
#[cycle(depth)]
pub(crate) fn depth(e: &TypedExpr) -> u64
    ensures { result ≡ capped (depth_of e.now) }
{
    match e {
        TypedExpr::Constant(..) => 2,
        TypedExpr::Object(..) => 2,
        TypedExpr::Convert(h, a) => conversion_depth(h.of).saturating_add(depth(a.get())),
        TypedExpr::Element(_, _, i) => over(depth(i.get())),
        TypedExpr::Assign(_, a, b) => over_two(depth(a.get()), depth(b.get())),
        TypedExpr::Compound(_, a, _, b) => over_two(depth(a.get()), depth(b.get())),
        TypedExpr::Before(_, _, a) => over(depth(a.get())),
        TypedExpr::After(_, a, _) => over(depth(a.get())),
        TypedExpr::Binary(_, a, _, b) => over_two(depth(a.get()), depth(b.get())),
        TypedExpr::Unary(_, _, a) => over(depth(a.get())),
        TypedExpr::Comma(_, a, b) => over_two(depth(a.get()), depth(b.get())),
        TypedExpr::Conditional(_, a, b, c) => {
            let last = depth(c.get()).saturating_add(1);
            over_two(depth(a.get()), depth(b.get()).max(last))
        }
        TypedExpr::Call(_, _, es) => arguments_depth(es.as_slice()),
    }
}

#[cycle(arguments)]
fn most_in(es: &[TypedExpr]) -> usize
    ensures { result ≡ max (length es.now) (most_of es.now) }
{
    let mut most = es.len();
    for e in es {
        most = most.max(arguments(e));
    }
    most
}

/// The most arguments of a call in an expression.
#[cycle(arguments)]
pub(crate) fn arguments(e: &TypedExpr) -> usize
    ensures { result ≡ arguments_of e.now }
{
    match e {
        TypedExpr::Constant(..) => 0,
        TypedExpr::Object(..) => 0,
        TypedExpr::Convert(_, a) => arguments(a.get()),
        TypedExpr::Element(_, _, i) => arguments(i.get()),
        TypedExpr::Assign(_, a, b) => arguments(a.get()).max(arguments(b.get())),
        TypedExpr::Compound(_, a, _, b) => arguments(a.get()).max(arguments(b.get())),
        TypedExpr::Before(_, _, a) => arguments(a.get()),
        TypedExpr::After(_, a, _) => arguments(a.get()),
        TypedExpr::Binary(_, a, _, b) => arguments(a.get()).max(arguments(b.get())),
        TypedExpr::Unary(_, _, a) => arguments(a.get()),
        TypedExpr::Comma(_, a, b) => arguments(a.get()).max(arguments(b.get())),
        TypedExpr::Conditional(_, a, b, c) => {
            arguments(a.get()).max(arguments(b.get()).max(arguments(c.get())))
        }
        TypedExpr::Call(_, _, es) => most_in(es.as_slice()),
    }
}

/// The greatest depth of some expressions, and the most arguments of their calls.
#[derive(Clone, Copy)]
pub struct Needs {
    pub depth: u64,
    pub arguments: usize,
}

fn none() -> Needs
    ensures { result ≡ record { depth = 0; arguments = 0 } }
{
    Needs {
        depth: 0,
        arguments: 0,
    }
}

fn both(a: Needs, b: Needs) -> Needs
    ensures { result ≡ record { depth = max a.depth b.depth; arguments = max a.arguments b.arguments } }
{
    Needs {
        depth: a.depth.max(b.depth),
        arguments: a.arguments.max(b.arguments),
    }
}

fn in_expr(e: &TypedExpr) -> Needs
    ensures { result ≡ record { depth = capped (depth_of e.now); arguments = arguments_of e.now } }
{
    Needs {
        depth: depth(e),
        arguments: arguments(e),
    }
}

fn in_option(e: &Option<TypedExpr>) -> Needs
    ensures depth { result.depth ≡ capped (in_option depth_of e.now) }
    ensures arguments { result.arguments ≡ in_option arguments_of e.now }
{
    match e {
        None => none(),
        Some(e) => in_expr(e),
    }
}

fn in_list(es: &[TypedExpr]) -> Needs
    ensures depth { result.depth ≡ capped (in_list depth_of es.now) }
    ensures arguments { result.arguments ≡ in_list arguments_of es.now }
{
    let mut needs = none();
    for e in es {
        needs = both(needs, in_expr(e));
    }
    needs
}

fn in_init(init: &LocalInit) -> Needs
    ensures depth { result.depth ≡ capped (in_init depth_of init.now) }
    ensures arguments { result.arguments ≡ in_init arguments_of init.now }
{
    match init {
        LocalInit::Absent => none(),
        LocalInit::Value(e) => in_expr(e),
        LocalInit::List(es) => in_list(es.as_slice()),
    }
}

fn in_locals(declared: &[Local]) -> Needs
    ensures depth { result.depth ≡ capped (in_locals depth_of declared.now) }
    ensures arguments { result.arguments ≡ in_locals arguments_of declared.now }
{
    let mut needs = none();
    for l in declared {
        needs = both(needs, in_init(&l.init));
    }
    needs
}

fn in_start(start: &Start) -> Needs
    ensures depth { result.depth ≡ capped (in_start depth_of start.now) }
    ensures arguments { result.arguments ≡ in_start arguments_of start.now }
{
    match start {
        Start::Absent => none(),
        Start::Value(e) => in_expr(e),
        Start::Declared(_, declared) => in_locals(declared.as_slice()),
    }
}

#[cycle(statements)]
fn in_block(ss: &[Boxed<Stat>]) -> Needs
    ensures depth { result.depth ≡ capped (in_block depth_of ss.now) }
    ensures arguments { result.arguments ≡ in_block arguments_of ss.now }
{
    let mut needs = none();
    for s in ss {
        needs = both(needs, in_stat(s.get()));
    }
    needs
}

#[cycle(statements)]
fn in_else(s: &Option<Boxed<Stat>>) -> Needs
    ensures depth { result.depth ≡ capped (in_else depth_of s.now) }
    ensures arguments { result.arguments ≡ in_else arguments_of s.now }
{
    match s {
        None => none(),
        Some(s) => in_stat(s.get()),
    }
}

/// What the full expressions of a statement need (C11 6.8p4).
#[cycle(statements)]
pub(crate) fn in_stat(s: &Stat) -> Needs
    ensures depth { result.depth ≡ capped (greatest_in depth_of s.now) }
    ensures arguments { result.arguments ≡ greatest_in arguments_of s.now }
{
    match s {
        Stat::Block(_, ss) => in_block(ss.as_slice()),
        Stat::Declare(_, declared) => in_locals(declared.as_slice()),
        Stat::Evaluate(_, e) => in_option(e),
        Stat::If(_, e, a, b) => both(in_expr(e), both(in_stat(a.get()), in_else(b))),
        Stat::While(_, e, a) => both(in_expr(e), in_stat(a.get())),
        Stat::DoWhile(_, a, e) => both(in_expr(e), in_stat(a.get())),
        Stat::For(_, first, test, step, a) => {
            let head = both(in_start(first), in_option(test));
            both(head, both(in_option(step), in_stat(a.get())))
        }
        Stat::Switch(_, e, ss) => both(in_block(ss.as_slice()), in_expr(e)),
        Stat::Case(_, _, a) => in_stat(a.get()),
        Stat::Default(_, a) => in_stat(a.get()),
        Stat::Break(_) => none(),
        Stat::Continue(_) => none(),
        Stat::Return(_, e) => in_option(e),
    }
}

/// What the full expressions of a function need. A depth from `2^64 - 1` on is given as that number.
pub fn needs_of(f: &Function) -> Needs
    ensures depth { result.depth ≡ capped (greatest_in depth_of f.now.body) }
    ensures arguments { result.arguments ≡ greatest_in arguments_of f.now.body }
{
    in_stat(f.body.get())
}

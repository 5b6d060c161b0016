//! The transfers of shapes.

ghost use Rattle.std.specs.Prelude.{◌-◌, ◌/◌, ◌^◌, ◌≡◌, IfOk, [], ◌∷◌, true};
ghost use Rattle.rtl_word.specs.Words.{IsWordSize};
ghost use Rattle.rtl_tree.specs.Trees.{Binary, CodeLabel, Load as Loaded, Number, Read, Unary, tree_of};
ghost use Rattle.rtl_tree.specs.Moves.{goal_of};
ghost use Rattle.rtl_tree.specs.declared.cells.Cell.TheVariants.{Flag, Hard, Pc};
ghost use Rattle.rtl_tree.specs.declared.expressions.Width.TheVariants.{Byte, Full};
ghost use Rattle.rtl_tree.specs.declared.expressions.UnOp.TheVariants.{Not, Sxb, Test};
ghost use Rattle.rtl_tree.specs.declared.expressions.BinOp.TheVariants.{Add, And, Cmp, When};
ghost use Rattle.md_shapes.specs.Drawings.{frame_of};
ghost use Rattle.md_shapes.specs.Shapes.{call_moves, has_link, has_transfer, link_call, restored, return_moves, saved, set_cell, shape_moves, stack_call, stack_return, store_at};
ghost use Rattle.temp_shapes.specs.Operands.{open_of};

use md_shapes::{Frame, Pattern};
use rtl_tree::{Assign, BinOp, Cell, Effects, Expr, Lab, NoMemory, Place, UnOp, Width};
use rtl_word::Rel;
use smallvec::SmallVec;
use std::alloc::Global;

/// What a shape leaves open: two registers or temporaries, a number, an object and a label.
#[derive(Clone, Copy, Debug)]
pub struct Operands {
    pub a: Cell,
    pub b: Cell,
    pub number: u32,
    /// By its place among the names.
    pub symbol: u16,
    pub label: Lab,
}

fn one(alloc: Global, to: Place, value: Expr) -> Result<Effects, NoMemory>
    ensures { IfOk result (λ e. e ≡ record { to = goal_of to; value = tree_of value } ∷ []) }
{
    let mut list = SmallVec::new(alloc);
    list.push(Assign { to, value })?;
    Ok(Effects { list })
}

fn sets(alloc: Global, cell: Cell, value: Expr) -> Result<Effects, NoMemory>
    ensures { IfOk result (λ e. e ≡ set_cell cell (tree_of value)) }
{
    one(alloc, Place::Cell(cell), value)
}

fn stores(alloc: Global, width: Width, at: Expr, value: Expr) -> Result<Effects, NoMemory>
    ensures { IfOk result (λ e. e ≡ store_at width (tree_of at) (tree_of value)) }
{
    one(alloc, Place::Mem(width, at), value)
}

fn loaded(alloc: Global, width: Width, at: Expr) -> Result<Expr, NoMemory>
    ensures { IfOk result (λ e. tree_of e ≡ Loaded width (tree_of at)) }
{
    Ok(Expr::Mem(width, Box::new(alloc, at)?))
}

fn unary(alloc: Global, operator: UnOp, a: Expr) -> Result<Expr, NoMemory>
    ensures { IfOk result (λ e. tree_of e ≡ Unary operator (tree_of a)) }
{
    Ok(Expr::Un(operator, Box::new(alloc, a)?))
}

fn binary(alloc: Global, operator: BinOp, a: Expr, b: Expr) -> Result<Expr, NoMemory>
    ensures { IfOk result (λ e. tree_of e ≡ Binary operator (tree_of a) (tree_of b)) }
{
    let a = Box::new(alloc, a)?;
    Ok(Expr::Bin(operator, a, Box::new(alloc, b)?))
}

fn above(alloc: Global, stack: Cell, number: u32) -> Result<Expr, NoMemory>
    ensures { IfOk result (λ e. tree_of e ≡ Binary Add (Read stack) (Number number)) }
{
    binary(alloc, BinOp::Add, Expr::Cell(stack), Expr::Num(number))
}

fn sets_loaded(alloc: Global, cell: Cell, at: Cell) -> Result<Effects, NoMemory>
    ensures { IfOk result (λ e. e ≡ set_cell cell (Loaded Full (Read at))) }
{
    let value = loaded(alloc, Width::Full, Expr::Cell(at))?;
    sets(alloc, cell, value)
}

fn sets_byte(alloc: Global, cell: Cell, at: Cell) -> Result<Effects, NoMemory>
    ensures { IfOk result (λ e. e ≡ set_cell cell (Unary Sxb (Loaded Byte (Read at)))) }
{
    let byte = loaded(alloc, Width::Byte, Expr::Cell(at))?;
    let value = unary(alloc, UnOp::Sxb, byte)?;
    sets(alloc, cell, value)
}

fn sets_home(alloc: Global, cell: Cell, stack: Cell, number: u32) -> Result<Effects, NoMemory>
    ensures { IfOk result (λ e. e ≡ set_cell cell (Loaded Full (Binary Add (Read stack) (Number number)))) }
{
    let place = above(alloc, stack, number)?;
    let value = loaded(alloc, Width::Full, place)?;
    sets(alloc, cell, value)
}

fn stores_home(alloc: Global, stack: Cell, number: u32, cell: Cell) -> Result<Effects, NoMemory>
    ensures { IfOk result (λ e. e ≡ store_at Full (Binary Add (Read stack) (Number number)) (Read cell)) }
{
    let place = above(alloc, stack, number)?;
    stores(alloc, Width::Full, place, Expr::Cell(cell))
}

fn sets_unary(alloc: Global, cell: Cell, operator: UnOp, a: Cell) -> Result<Effects, NoMemory>
    ensures { IfOk result (λ e. e ≡ set_cell cell (Unary operator (Read a))) }
{
    let value = unary(alloc, operator, Expr::Cell(a))?;
    sets(alloc, cell, value)
}

fn sets_binary(
    alloc: Global,
    cell: Cell,
    operator: BinOp,
    a: Cell,
    b: Cell,
) -> Result<Effects, NoMemory>
    ensures { IfOk result (λ e. e ≡ set_cell cell (Binary operator (Read a) (Read b))) }
{
    let value = binary(alloc, operator, Expr::Cell(a), Expr::Cell(b))?;
    sets(alloc, cell, value)
}

fn sets_sum(alloc: Global, cell: Cell, number: u32) -> Result<Effects, NoMemory>
    ensures { IfOk result (λ e. e ≡ set_cell cell (Binary Add (Read cell) (Number number))) }
{
    let value = above(alloc, cell, number)?;
    sets(alloc, cell, value)
}

fn clears(alloc: Global, a: Cell, b: Cell) -> Result<Effects, NoMemory>
    ensures { IfOk result (λ e. e ≡ set_cell a (Binary And (Read a) (Unary Not (Read b)))) }
{
    let mask = unary(alloc, UnOp::Not, Expr::Cell(b))?;
    let value = binary(alloc, BinOp::And, Expr::Cell(a), mask)?;
    sets(alloc, a, value)
}

fn branches(alloc: Global, condition: Expr, label: Lab) -> Result<Effects, NoMemory>
    ensures { IfOk result (λ e. e ≡ set_cell Pc (Binary When (tree_of condition) (CodeLabel label))) }
{
    let value = binary(alloc, BinOp::When, condition, Expr::Label(label))?;
    sets(alloc, Cell::Pc, value)
}

fn branches_on(
    alloc: Global,
    relation: Rel,
    a: Cell,
    b: Cell,
    label: Lab,
) -> Result<Effects, NoMemory>
    ensures { IfOk result (λ e. e ≡ set_cell Pc (Binary When (Binary (Cmp relation) (Read a) (Read b)) (CodeLabel label))) }
{
    let condition = binary(alloc, BinOp::Cmp(relation), Expr::Cell(a), Expr::Cell(b))?;
    branches(alloc, condition, label)
}

fn branches_by_flag(alloc: Global, relation: Rel, flag: u8, label: Lab) -> Result<Effects, NoMemory>
    ensures { IfOk result (λ e. e ≡ set_cell Pc (Binary When (Unary (Test relation) (Read (Flag flag))) (CodeLabel label))) }
{
    let condition = unary(alloc, UnOp::Test(relation), Expr::Cell(Cell::Flag(flag)))?;
    branches(alloc, condition, label)
}

fn calls_by_link(alloc: Global, link: u8, label: Lab) -> Result<Effects, NoMemory>
    ensures { IfOk result (λ e. e ≡ link_call link label) }
{
    let mut list = SmallVec::new(alloc);
    let to = Place::Cell(Cell::Hard(link));
    let value = Expr::Cell(Cell::Pc);
    list.push(Assign { to, value })?;
    let to = Place::Cell(Cell::Pc);
    let value = Expr::Label(label);
    list.push(Assign { to, value })?;
    Ok(Effects { list })
}

fn minus_word_bytes(bits: u32) -> u32
    requires { IsWordSize bits }
    ensures { result ≡ 2 ^ bits - bits / 8 }
{
    if bits == 16 { 0xfffe } else { 0xffff_fffc }
}

fn calls_by_stack(alloc: Global, bits: u32, stack: Cell, label: Lab) -> Result<Effects, NoMemory>
    requires { IsWordSize bits }
    ensures { IfOk result (λ e. e ≡ stack_call (Binary Add (Read stack) (Number (2 ^ bits - bits / 8))) stack label) }
{
    let step = minus_word_bytes(bits);
    let place = above(alloc, stack, step)?;
    let lowered = above(alloc, stack, step)?;
    let mut list = SmallVec::new(alloc);
    let to = Place::Mem(Width::Full, place);
    let value = Expr::Cell(Cell::Pc);
    list.push(Assign { to, value })?;
    let to = Place::Cell(stack);
    let value = lowered;
    list.push(Assign { to, value })?;
    let to = Place::Cell(Cell::Pc);
    let value = Expr::Label(label);
    list.push(Assign { to, value })?;
    Ok(Effects { list })
}

fn calls(alloc: Global, bits: u32, frame: Frame, label: Lab) -> Result<Effects, NoMemory>
    requires { IsWordSize bits }
    ensures { IfOk result (λ e. e ≡ call_moves (frame_of bits frame) frame.link label) }
{
    match frame.link {
        Some(link) => calls_by_link(alloc, link, label),
        None => calls_by_stack(alloc, bits, Cell::Hard(frame.stack), label),
    }
}

fn returns_by_stack(alloc: Global, stack: Cell, bytes: u32) -> Result<Effects, NoMemory>
    ensures { IfOk result (λ e. e ≡ stack_return (Read stack) stack bytes) }
{
    let back = loaded(alloc, Width::Full, Expr::Cell(stack))?;
    let raised = above(alloc, stack, bytes)?;
    let mut list = SmallVec::new(alloc);
    let to = Place::Cell(Cell::Pc);
    let value = back;
    list.push(Assign { to, value })?;
    let to = Place::Cell(stack);
    let value = raised;
    list.push(Assign { to, value })?;
    Ok(Effects { list })
}

fn returns(alloc: Global, bits: u32, frame: Frame) -> Result<Effects, NoMemory>
    ensures { IfOk result (λ e. e ≡ return_moves (frame_of bits frame) frame.link) }
{
    match frame.link {
        Some(link) => sets(alloc, Cell::Pc, Expr::Cell(Cell::Hard(link))),
        None => returns_by_stack(alloc, Cell::Hard(frame.stack), bits / 8),
    }
}

fn saves_link(
    alloc: Global,
    link: Option<u8>,
    stack: Cell,
    number: u32,
) -> Result<Effects, NoMemory>
    requires { has_link link ≡ true }
    ensures { IfOk result (λ e. e ≡ saved link (Binary Add (Read stack) (Number number))) }
{
    match link {
        Some(link) => stores_home(alloc, stack, number, Cell::Hard(link)),
        None => unreachable!(),
    }
}

fn restores_link(
    alloc: Global,
    link: Option<u8>,
    stack: Cell,
    number: u32,
) -> Result<Effects, NoMemory>
    requires { has_link link ≡ true }
    ensures { IfOk result (λ e. e ≡ restored link (Binary Add (Read stack) (Number number))) }
{
    match link {
        Some(link) => sets_home(alloc, Cell::Hard(link), stack, number),
        None => unreachable!(),
    }
}

/// The transfer of a shape at these operands.
pub(crate) fn shape_effects(
    alloc: Global,
    bits: u32,
    frame: Frame,
    pattern: Pattern,
    p: Operands,
) -> Result<Effects, NoMemory>
    requires size { IsWordSize bits }
    requires transfer { has_transfer (frame_of bits frame) pattern ≡ true }
    ensures { IfOk result (λ e. e ≡ shape_moves (frame_of bits frame) pattern (open_of p)) }
{
    let (stack, q) = (Cell::Hard(frame.stack), Cell::Hard(frame.result));
    match pattern {
        Pattern::Copy => sets(alloc, p.a, Expr::Cell(p.b)),
        Pattern::SetNumber => sets(alloc, p.a, Expr::Num(p.number)),
        Pattern::SetSymbol => sets(alloc, p.a, Expr::Sym(p.symbol)),
        Pattern::Load => sets_loaded(alloc, p.a, p.b),
        Pattern::Store => stores(alloc, Width::Full, Expr::Cell(p.a), Expr::Cell(p.b)),
        Pattern::LoadByte => sets_byte(alloc, p.a, p.b),
        Pattern::StoreByte => stores(alloc, Width::Byte, Expr::Cell(p.a), Expr::Cell(p.b)),
        Pattern::LoadHome => sets_home(alloc, p.a, stack, p.number),
        Pattern::StoreHome => stores_home(alloc, stack, p.number, p.a),
        Pattern::StoreTop => stores(alloc, Width::Full, Expr::Cell(stack), Expr::Cell(p.a)),
        Pattern::ReadStack => sets(alloc, p.a, Expr::Cell(stack)),
        Pattern::MoveStack => sets_sum(alloc, stack, p.number),
        Pattern::SetStack => sets(alloc, stack, Expr::Num(frame.memory)),
        Pattern::Operate(operator) => sets_binary(alloc, p.a, operator, p.a, p.b),
        Pattern::Complement => sets_unary(alloc, p.a, UnOp::Not, p.a),
        Pattern::Clear => clears(alloc, p.a, p.b),
        Pattern::Jump => sets(alloc, Cell::Pc, Expr::Label(p.label)),
        Pattern::Branch(relation) => branches_on(alloc, relation, p.a, p.b, p.label),
        Pattern::Compare(flag) => sets_binary(alloc, Cell::Flag(flag), BinOp::Pair, p.a, p.b),
        Pattern::BranchByFlag(relation, flag) => branches_by_flag(alloc, relation, flag, p.label),
        Pattern::Call => calls(alloc, bits, frame, p.label),
        Pattern::Return => returns(alloc, bits, frame),
        Pattern::SaveLink => saves_link(alloc, frame.link, stack, p.number),
        Pattern::RestoreLink => restores_link(alloc, frame.link, stack, p.number),
        Pattern::TakeInput => sets(alloc, q, Expr::Cell(Cell::Input)),
        Pattern::PutOutput => sets(alloc, Cell::Output, Expr::Cell(q)),
        Pattern::Halt => sets(alloc, Cell::Halt, Expr::Cell(q)),
        Pattern::ReadResult => sets(alloc, p.a, Expr::Cell(q)),
        Pattern::SetResult => sets(alloc, q, Expr::Cell(p.a)),
        Pattern::ExtendByte => sets_unary(alloc, p.a, UnOp::Sxb, p.a),
    }
}

//! The transfers of the shapes that linking adds.

ghost use Rattle.std.specs.Prelude.{◌-◌, ◌/◌, ◌^◌, ◌≡◌, IfOk, [], ◌∷◌, true};
ghost use Rattle.rtl_word.specs.Words.{IsWordSize};
ghost use Rattle.rtl_tree.specs.Trees.{Binary, CodeLabel, Load as Loaded, Number, Read, tree_of};
ghost use Rattle.rtl_tree.specs.Moves.{goal_of};
ghost use Rattle.rtl_tree.specs.declared.cells.Cell.TheVariants.{Hard, Pc};
ghost use Rattle.rtl_tree.specs.declared.expressions.Width.TheVariants.{Full};
ghost use Rattle.rtl_tree.specs.declared.expressions.BinOp.TheVariants.{Add};
ghost use Rattle.md_shapes.specs.Drawings.{frame_of};
ghost use Rattle.md_shapes.specs.Shapes.{call_moves, has_link, has_transfer, link_call, restored, return_moves, saved, set_cell, shape_moves, stack_call, stack_return, store_at};
ghost use Rattle.temp_laws.specs.Conditions.{on_temporaries};
ghost use Rattle.link_rows.specs.Added.{is_added};

use md_shapes::{Frame, Pattern};
use rtl_tree::{Assign, BinOp, Cell, Effects, Expr, Lab, NoMemory, Place, Width};
use smallvec::SmallVec;
use std::alloc::Global;

fn one(alloc: Global, to: Place, value: Expr) -> Result<Effects, NoMemory>
    ensures { IfOk result (λ e. e ≡ record { to = goal_of to; value = tree_of value } ∷ []) }
{
    let mut list = SmallVec::new(alloc);
    list.push(Assign { to, value })?;
    Ok(Effects { list })
}

fn sets(alloc: Global, cell: Cell, value: Expr) -> Result<Effects, NoMemory>
    ensures { IfOk result (λ e. e ≡ set_cell cell (tree_of value)) }
{
    one(alloc, Place::Cell(cell), value)
}

fn loaded(alloc: Global, at: Expr) -> Result<Expr, NoMemory>
    ensures { IfOk result (λ e. tree_of e ≡ Loaded Full (tree_of at)) }
{
    Ok(Expr::Mem(Width::Full, Box::new(alloc, at)?))
}

fn above(alloc: Global, stack: Cell, number: u32) -> Result<Expr, NoMemory>
    ensures { IfOk result (λ e. tree_of e ≡ Binary Add (Read stack) (Number number)) }
{
    let a = Box::new(alloc, Expr::Cell(stack))?;
    let b = Box::new(alloc, Expr::Num(number))?;
    Ok(Expr::Bin(BinOp::Add, a, b))
}

fn moves_stack(alloc: Global, stack: Cell, number: u32) -> Result<Effects, NoMemory>
    ensures { IfOk result (λ e. e ≡ set_cell stack (Binary Add (Read stack) (Number number))) }
{
    let value = above(alloc, stack, number)?;
    sets(alloc, stack, value)
}

fn calls_by_link(alloc: Global, link: u8, label: Lab) -> Result<Effects, NoMemory>
    ensures { IfOk result (λ e. e ≡ link_call link label) }
{
    let mut list = SmallVec::new(alloc);
    let to = Place::Cell(Cell::Hard(link));
    let value = Expr::Cell(Cell::Pc);
    list.push(Assign { to, value })?;
    let to = Place::Cell(Cell::Pc);
    let value = Expr::Label(label);
    list.push(Assign { to, value })?;
    Ok(Effects { list })
}

fn minus_word_bytes(bits: u32) -> u32
    requires { IsWordSize bits }
    ensures { result ≡ 2 ^ bits - bits / 8 }
{
    if bits == 16 { 0xfffe } else { 0xffff_fffc }
}

fn calls_by_stack(alloc: Global, bits: u32, stack: Cell, label: Lab) -> Result<Effects, NoMemory>
    requires { IsWordSize bits }
    ensures { IfOk result (λ e. e ≡ stack_call (Binary Add (Read stack) (Number (2 ^ bits - bits / 8))) stack label) }
{
    let step = minus_word_bytes(bits);
    let place = above(alloc, stack, step)?;
    let lowered = above(alloc, stack, step)?;
    let mut list = SmallVec::new(alloc);
    let to = Place::Mem(Width::Full, place);
    let value = Expr::Cell(Cell::Pc);
    list.push(Assign { to, value })?;
    let to = Place::Cell(stack);
    let value = lowered;
    list.push(Assign { to, value })?;
    let to = Place::Cell(Cell::Pc);
    let value = Expr::Label(label);
    list.push(Assign { to, value })?;
    Ok(Effects { list })
}

fn calls(alloc: Global, bits: u32, frame: Frame, label: Lab) -> Result<Effects, NoMemory>
    requires { IsWordSize bits }
    ensures { IfOk result (λ e. e ≡ call_moves (frame_of bits frame) frame.link label) }
{
    match frame.link {
        Some(link) => calls_by_link(alloc, link, label),
        None => calls_by_stack(alloc, bits, Cell::Hard(frame.stack), label),
    }
}

fn returns_by_stack(alloc: Global, stack: Cell, bytes: u32) -> Result<Effects, NoMemory>
    ensures { IfOk result (λ e. e ≡ stack_return (Read stack) stack bytes) }
{
    let back = loaded(alloc, Expr::Cell(stack))?;
    let raised = above(alloc, stack, bytes)?;
    let mut list = SmallVec::new(alloc);
    let to = Place::Cell(Cell::Pc);
    let value = back;
    list.push(Assign { to, value })?;
    let to = Place::Cell(stack);
    let value = raised;
    list.push(Assign { to, value })?;
    Ok(Effects { list })
}

fn returns(alloc: Global, bits: u32, frame: Frame) -> Result<Effects, NoMemory>
    ensures { IfOk result (λ e. e ≡ return_moves (frame_of bits frame) frame.link) }
{
    match frame.link {
        Some(link) => sets(alloc, Cell::Pc, Expr::Cell(Cell::Hard(link))),
        None => returns_by_stack(alloc, Cell::Hard(frame.stack), bits / 8),
    }
}

fn saves_link(
    alloc: Global,
    link: Option<u8>,
    stack: Cell,
    number: u32,
) -> Result<Effects, NoMemory>
    requires { has_link link ≡ true }
    ensures { IfOk result (λ e. e ≡ saved link (Binary Add (Read stack) (Number number))) }
{
    match link {
        Some(link) => {
            let place = above(alloc, stack, number)?;
            one(
                alloc,
                Place::Mem(Width::Full, place),
                Expr::Cell(Cell::Hard(link)),
            )
        }
        None => unreachable!(),
    }
}

fn restores_link(
    alloc: Global,
    link: Option<u8>,
    stack: Cell,
    number: u32,
) -> Result<Effects, NoMemory>
    requires { has_link link ≡ true }
    ensures { IfOk result (λ e. e ≡ restored link (Binary Add (Read stack) (Number number))) }
{
    match link {
        Some(link) => {
            let place = above(alloc, stack, number)?;
            let value = loaded(alloc, place)?;
            sets(alloc, Cell::Hard(link), value)
        }
        None => unreachable!(),
    }
}

/// The transfer of a shape that linking adds, at this number and this label.
pub(crate) fn added_effects(
    alloc: Global,
    bits: u32,
    frame: Frame,
    pattern: Pattern,
    number: u32,
    label: Lab,
) -> Result<Effects, NoMemory>
    requires size { IsWordSize bits }
    requires added { is_added pattern ≡ true }
    requires transfer { has_transfer (frame_of bits frame) pattern ≡ true }
    ensures { IfOk result (λ e. e ≡ shape_moves (frame_of bits frame) pattern (on_temporaries 0 1 number 0 label)) }
{
    let (stack, q) = (Cell::Hard(frame.stack), Cell::Hard(frame.result));
    match pattern {
        Pattern::SetStack => sets(alloc, stack, Expr::Num(frame.memory)),
        Pattern::MoveStack => moves_stack(alloc, stack, number),
        Pattern::Call => calls(alloc, bits, frame, label),
        Pattern::Return => returns(alloc, bits, frame),
        Pattern::SaveLink => saves_link(alloc, frame.link, stack, number),
        Pattern::RestoreLink => restores_link(alloc, frame.link, stack, number),
        Pattern::Halt => sets(alloc, Cell::Halt, Expr::Cell(q)),
        _ => unreachable!(),
    }
}
